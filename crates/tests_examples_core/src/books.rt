//! How reports and removals change an operator's rows.
#![tactic(auto)]

ghost use Rattle.std.specs.Prelude.{◌≡◌, [], ◌∷◌, Some, None, Ok, Err, codes};
ghost use Rattle.std.specs.FinMap.{empty};
ghost use Rattle.mds_fleet.specs.Books.{outcome, rows_after, row_after, row_from};
ghost use Rattle.mds_fleet.specs.History.{arrival, removal, accepted_reports, row_by};
ghost use Rattle.mds_fleet.specs.declared.book.Taken.TheVariants.{New, Changed, Same};
ghost use Rattle.mds_fleet.specs.declared.book.BookFault.TheVariants.{Future, Stale, FleetFull};
ghost use Rattle.tests_examples_core.specs.Geographies.{east};
ghost use Rattle.tests_examples_core.specs.Vehicles.{report_of, first_device, second_device, third_device, first_report, busy_report, second_report, third_report, first_vehicle, one_row, two_rows};

/// A report of a device that isn't held is new where there is room. The same report again changes
/// nothing; a later one, and one of the same time that differs, is a change.
pub fn acceptance()
    ensures new { outcome empty 2 (first_report 2000) 2000 ≡ Ok New }
    ensures same { outcome one_row 2 (first_report 2000) 2500 ≡ Ok Same }
    ensures same_leaves_rows { rows_after one_row (first_report 2000) (outcome one_row 2 (first_report 2000) 2500) ≡ one_row }
    ensures later { outcome one_row 2 (first_report 5000) 5000 ≡ Ok Changed }
    ensures elsewhere { outcome one_row 2 (report_of first_device (east 5 6) 2000) 2500 ≡ Ok Changed }
    ensures repeated_event { outcome one_row 2 (record (first_report 2000) { events = codes "trip_end" ∷ codes "trip_end" ∷ [] }) 2500 ≡ Ok Changed }
    ensures in_a_full_fleet { outcome two_rows 2 (first_report 2001) 2001 ≡ Ok Changed }
{}

/// A report from the future is refused as such, also where it is stale or there is no room for it.
pub fn refusals()
    ensures future { outcome one_row 2 (first_report 3000) 2999 ≡ Err Future }
    ensures future_and_stale { outcome one_row 2 (first_report 1000) 999 ≡ Err Future }
    ensures future_and_full { outcome two_rows 2 (third_report 3000) 2999 ≡ Err Future }
    ensures stale { outcome one_row 2 (first_report 1999) 2500 ≡ Err Stale }
    ensures full { outcome two_rows 2 (third_report 2000) 2500 ≡ Err FleetFull }
{}

/// The beginning of a run stays while the state does, and another state begins a run of its own, also when the device
/// was in it before.
pub fn runs()
    ensures first { row_after None (first_report 2000) ≡ row_from (first_report 2000) 2000 }
    ensures same_state { row_after (Some first_vehicle) (first_report 5000) ≡ row_from (first_report 5000) 2000 }
    ensures other_state { row_after (Some first_vehicle) (busy_report 5000) ≡ row_from (busy_report 5000) 5000 }
    ensures state_before { row_after (Some (row_from (busy_report 5000) 5000)) (first_report 6000) ≡ row_from (first_report 6000) 6000 }
{}

/// The same by the list of reports and removals, the last one first.
pub fn histories()
    ensures same_state { row_by (accepted_reports 2 (arrival (first_report 5000) 5000 ∷ arrival (first_report 2000) 2000 ∷ []) first_device) ≡ Some (row_from (first_report 5000) 2000) }
    ensures state_before { row_by (accepted_reports 2 (arrival (first_report 6000) 6000 ∷ arrival (busy_report 5000) 5000 ∷ arrival (first_report 2000) 2000 ∷ []) first_device) ≡ Some (row_from (first_report 6000) 6000) }
    ensures repeated { row_by (accepted_reports 2 (arrival (first_report 2000) 2500 ∷ arrival (first_report 2000) 2000 ∷ []) first_device) ≡ Some first_vehicle }
    ensures stale { row_by (accepted_reports 2 (arrival (first_report 1999) 2500 ∷ arrival (first_report 2000) 2000 ∷ []) first_device) ≡ Some first_vehicle }
    ensures future { row_by (accepted_reports 2 (arrival (first_report 3000) 2999 ∷ []) first_device) ≡ None }
{}

/// After a removal a device begins anew, with an earlier report too; until then there is room for another.
pub fn removals()
    ensures removed { row_by (accepted_reports 2 (removal first_device ∷ arrival (first_report 2000) 2000 ∷ []) first_device) ≡ None }
    ensures anew { row_by (accepted_reports 2 (arrival (first_report 1999) 2500 ∷ removal first_device ∷ arrival (first_report 2000) 2000 ∷ []) first_device) ≡ Some (row_from (first_report 1999) 1999) }
    ensures other { row_by (accepted_reports 2 (removal second_device ∷ arrival (first_report 2000) 2000 ∷ []) first_device) ≡ Some first_vehicle }
    ensures no_room { row_by (accepted_reports 2 (arrival (third_report 3000) 3000 ∷ arrival (second_report 2000) 2000 ∷ arrival (first_report 2000) 2000 ∷ []) third_device) ≡ None }
    ensures room_again { row_by (accepted_reports 2 (arrival (third_report 3000) 3000 ∷ removal second_device ∷ arrival (second_report 2000) 2000 ∷ arrival (first_report 2000) 2000 ∷ []) third_device) ≡ Some (row_from (third_report 3000) 3000) }
{}
