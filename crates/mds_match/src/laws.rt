//! Laws of zones, windows and matching: for all rules, policies and vehicles, and on some worked
//! examples. Each function's contract is the law; the functions themselves do nothing.

ghost use Rattle.std.specs.Prelude.{◌≡◌, ◌⊎◌, ◌+ℤ◌, ℕ, ℤ, ◌<◌, ◌≤◌, List, IsTrue, Some, None, Contains, length, slice_get, sum_by};
ghost use Rattle.std.specs.List.{range_with_len};
ghost use Rattle.jiff_core.specs.DateTime.{civil_nanos};
ghost use Rattle.jiff_core.specs.Timestamp.{nanos_of_seconds};
ghost use Rattle.jiff_core.specs.declared.civil.datetime.DateTime.{DateTime};
ghost use Rattle.jiff_tz.specs.PosixText.{tz_view};
ghost use Rattle.jiff_tz.specs.Zone.{offset_at};
ghost use Rattle.jiff_tz.specs.declared.posix.TimeZone.{TimeZone as PosixZone};
ghost use Rattle.jiff_tz.specs.declared.timezone.TimeZone.TheVariants.{Posix};
ghost use Rattle.mds_geometry.specs.declared.position.Position.{Position};
ghost use Rattle.mds_policy.specs.Policy.{Policy, Rule};
ghost use Rattle.mds_policy.specs.declared.rule.Window.{Window};
ghost use Rattle.mds_match.specs.declared.local.Local.{Local};
ghost use Rattle.mds_match.specs.Row.{Row};
ghost use Rattle.mds_match.specs.Matching.{is_open, is_listed, day_before, meets, first, caught};
ghost use Rattle.mds_match.specs.Zone.{ruled, rule_offset, instant_of, local_of, shown};
ghost use Rattle.mds_match.specs.Examples.{friday_night, until_last_minute, all_day, at};

/// A rule is open only on the days that it lists, unless its window crosses midnight and the day
/// before is listed.
pub fn open_on_listed_days()
    ensures { (window : Window) (local : Local) → IsTrue (is_open window local)
        → IsTrue (is_listed window local.weekday)
        ⊎ ((window.end < window.start) × IsTrue (is_listed window (day_before local.weekday))) }
{}

/// The rule that catches a vehicle is one that the vehicle meets, and it meets none of the rules
/// before it.
pub fn first_is_least()
    ensures { (policy : Policy) (polygons : List ℕ → List (List (List Position))) (row : Row) (local : Local) (n : ℕ) →
        first policy polygons row local ≡ Some n →
        ((rule : Rule) → slice_get policy.rules n ≡ Some rule → IsTrue (meets rule polygons row local))
        × ((k : ℕ) (rule : Rule) → k < n → slice_get policy.rules k ≡ Some rule → ¬ IsTrue (meets rule polygons row local)) }
{}

/// A vehicle is caught by at most one rule of a policy.
pub fn caught_by_one_rule()
    ensures { (policy : Policy) (i j : ℕ) (polygons : List ℕ → List (List (List Position))) (rows : List Row) (local : Local) (row : Row) →
        Contains (caught policy i polygons rows local) row → Contains (caught policy j polygons rows local) row → i ≡ j }
{}

/// The numbers of vehicles that the rules of a policy catch add up to at most the number of all
/// vehicles.
pub fn caught_at_most_all()
    ensures { (policy : Policy) (polygons : List ℕ → List (List (List Position))) (rows : List Row) (local : Local) →
        sum_by (λ n. length (caught policy n polygons rows local)) (range_with_len 0 (length policy.rules)) ≤ length rows }
{}

/// On Fridays from 22:00 to 05:00:00 a rule is closed until Friday 21:59:59 and open from Friday
/// 22:00:00 to Saturday 05:00:00; it is closed on Friday at 05:00:00, since Thursday isn't listed,
/// and from Saturday 05:00:01 on.
pub fn night_from_friday()
    ensures early { ¬ IsTrue (is_open friday_night (at 5 5 0 0)) }
    ensures before { ¬ IsTrue (is_open friday_night (at 5 21 59 59)) }
    ensures start { IsTrue (is_open friday_night (at 5 22 0 0)) }
    ensures midnight { IsTrue (is_open friday_night (at 6 0 0 0)) }
    ensures end { IsTrue (is_open friday_night (at 6 5 0 0)) }
    ensures after { ¬ IsTrue (is_open friday_night (at 6 5 0 1)) }
    ensures next_night { ¬ IsTrue (is_open friday_night (at 6 22 0 0)) }
{}

/// A rule that ends at 23:59 ends at 23:59:00, so it is closed in the last second of the day, in
/// which a rule without times is open.
pub fn last_minute()
    ensures open { IsTrue (is_open until_last_minute (at 1 23 59 0)) }
    ensures closed { ¬ IsTrue (is_open until_last_minute (at 1 23 59 59)) }
    ensures without_times { IsTrue (is_open all_day (at 1 23 59 59)) }
{}

/// A rule's offset is the one that `jiff` computes for it, and the local time by a rule is the
/// weekday and the second of the day of the civil datetime to which `jiff` converts the instant.
pub fn rules_are_as_jiff_converts()
    ensures offset { (rule : PosixZone) (instant : ℤ) → rule_offset (tz_view rule) instant ≡ offset_at (Posix rule) instant }
    ensures datetime { (rule : PosixZone) (moment : ℕ) (datetime : DateTime) →
        civil_nanos datetime ≡ instant_of moment +ℤ nanos_of_seconds (offset_at (Posix rule) (instant_of moment)) →
        local_of (ruled (tz_view rule)) moment ≡ shown datetime }
{}
