//! Laws of verdicts: for all policies and vehicles, and on worked examples of bounds. Each
//! function's contract is the law; the functions themselves do nothing.

ghost use Rattle.std.specs.Prelude.{◌≡◌, ℕ, ◌≤◌, List, Some, true, false, IsTrue, All, IsPermutation, length, map};
ghost use Rattle.mds_geometry.specs.declared.position.Position.{Position};
ghost use Rattle.mds_policy.specs.Policy.{Policy};
ghost use Rattle.mds_policy.specs.declared.rule.TimeUnit.TheVariants.{Minutes};
ghost use Rattle.mds_match.specs.declared.local.Local.{Local};
ghost use Rattle.mds_match.specs.Row.{Row};
ghost use Rattle.mds_verdict.specs.Verdict.{verdicts, above_minimum, below_maximum, millis};
ghost use Rattle.mds_verdict.specs.declared.verdict.Status.{Status};
ghost use Rattle.mds_verdict.specs.declared.verdict.TheConstants.{MOST_DEVICES};

/// Statuses and measures don't depend on the order of the vehicles.
pub fn any_order()
    ensures { (policy : Policy) (polygons : List ℕ → List (List (List Position))) (rows others : List Row) (local : Local) (t : ℕ) →
        IsPermutation rows others → map {B = Status × ℕ} (λ v. (v.status, v.measure)) (verdicts policy polygons rows local t)
        ≡ map {B = Status × ℕ} (λ v. (v.status, v.measure)) (verdicts policy polygons others local t) }
{}

/// There is one verdict for each rule, no measure is greater than the number of vehicles, and no
/// list of devices is longer than `MOST_DEVICES`.
pub fn verdicts_are_bounded()
    ensures each { (policy : Policy) (polygons : List ℕ → List (List (List Position))) (rows : List Row) (local : Local) (t : ℕ) →
        length (verdicts policy polygons rows local t) ≡ length policy.rules }
    ensures measures { (policy : Policy) (polygons : List ℕ → List (List (List Position))) (rows : List Row) (local : Local) (t : ℕ) →
        All (λ v. v.measure ≤ length rows) (verdicts policy polygons rows local t) }
    ensures devices { (policy : Policy) (polygons : List ℕ → List (List (List Position))) (rows : List Row) (local : Local) (t : ℕ) →
        All (λ v. length v.devices ≤ MOST_DEVICES) (verdicts policy polygons rows local t) }
{}

/// The inclusive flags apply to the bound times the unit: a minute is within an inclusive maximum
/// of one minute, and not within an exclusive one. A minimum of one isn't met by zero.
pub fn ends_of_bounds()
    ensures included { IsTrue (below_maximum (Some 1) true (millis Minutes) 60000) }
    ensures after { ¬ IsTrue (below_maximum (Some 1) true (millis Minutes) 60001) }
    ensures excluded { ¬ IsTrue (below_maximum (Some 1) false (millis Minutes) 60000) }
    ensures before { IsTrue (below_maximum (Some 1) false (millis Minutes) 59999) }
    ensures none { ¬ IsTrue (above_minimum (Some 1) true 1 0) }
    ensures one { IsTrue (above_minimum (Some 1) true 1 1) }
{}
