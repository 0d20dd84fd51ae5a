//! The local time in a zone: the weekday, 0 for Sunday, and the second of the day.
#![tactic(auto, unfolding(crate::specs::Computed::zones))]

ghost use Rattle.std.specs.Prelude.{◌≡◌, codes, Ok, Err};
ghost use Rattle.mds_text.specs.Fault.{bad_zone};
ghost use Rattle.mds_match.specs.Examples.{at};
ghost use Rattle.mds_match.specs.Zone.{zone_of, local_of, ruled};
ghost use Rattle.tests_examples_core.specs.Zones.{local_in, pacific, sydney};

/// The Unix epoch was a Thursday at midnight; a second lasts to its last millisecond.
pub fn epoch()
    ensures midnight { local_in (codes "Z") 0 ≡ Ok (at 4 0 0 0) }
    ensures last_millisecond { local_in (codes "Z") 86399999 ≡ Ok (at 4 23 59 59) }
    ensures next_day { local_in (codes "Z") 86400000 ≡ Ok (at 5 0 0 0) }
    ensures cut_down { local_in (codes "Z") 190800999 ≡ Ok (at 6 5 0 0) }
{}

/// An offset with a plus is east of Greenwich. West of it the day of the epoch is still Wednesday.
pub fn fixed_offsets()
    ensures east { local_in (codes "+05:30") 0 ≡ Ok (at 4 5 30 0) }
    ensures west { local_in (codes "-08:00") 0 ≡ Ok (at 3 16 0 0) }
    ensures west_cut_down { local_in (codes "-00:01") 999 ≡ Ok (at 3 23 59 0) }
    ensures farthest { local_in (codes "+14:59") 0 ≡ Ok (at 4 14 59 0) }
    ensures too_far { local_in (codes "+15:00") 0 ≡ Err bad_zone }
    ensures minutes { local_in (codes "+05:60") 0 ≡ Err bad_zone }
{}

/// In Pacific time the clock goes from 01:59:59 to 03:00:00 on 12 March 2023, a Sunday, and from
/// 01:59:59 back to 01:00:00 on 5 November.
pub fn daylight_saving()
    ensures read { zone_of (codes "PST8PDT,M3.2.0,M11.1.0") ≡ Ok (ruled pacific) }
    ensures before_the_gap { local_of (ruled pacific) 1678615199999 ≡ at 0 1 59 59 }
    ensures after_the_gap { local_of (ruled pacific) 1678615200000 ≡ at 0 3 0 0 }
    ensures first_time { local_of (ruled pacific) 1699174799999 ≡ at 0 1 59 59 }
    ensures second_time { local_of (ruled pacific) 1699174800000 ≡ at 0 1 0 0 }
{}

/// In the southern hemisphere daylight saving time is in force over the end of the year: on 1
/// January 2023 at midnight in UTC it is Sunday 11:00:00 in Sydney, and on 1 July Saturday
/// 10:00:00.
pub fn southern_summer()
    ensures read { zone_of (codes "AEST-10AEDT,M10.1.0,M4.1.0/3") ≡ Ok (ruled sydney) }
    ensures january { local_of (ruled sydney) 1672531200000 ≡ at 0 11 0 0 }
    ensures july { local_of (ruled sydney) 1688169600000 ≡ at 6 10 0 0 }
{}
