//! Laws of bitmaps, for all rules and vehicles. Each function's contract is the law; the functions
//! themselves do nothing.

ghost use Rattle.std.specs.Prelude.{◌≡◌, ◌&&◌, ℕ, List};
ghost use Rattle.mds_geometry.specs.declared.position.Position.{Position};
ghost use Rattle.mds_policy.specs.Policy.{Rule};
ghost use Rattle.mds_match.specs.declared.local.Local.{Local};
ghost use Rattle.mds_match.specs.Matching.{meets};
ghost use Rattle.mds_match.specs.Row.{Row};
ghost use Rattle.mds_bitmaps.specs.Masks.{is_open_at, matches};

/// A vehicle meets a rule at a local time exactly where the rule is open then and the vehicle's row
/// matches the rule whatever the time.
pub fn row_and_time()
    ensures { (rule : Rule) (polygons : List ℕ → List (List (List Position))) (row : Row) (local : Local) →
        meets rule polygons row local ≡ (is_open_at local rule && matches polygons row rule) }
{}
