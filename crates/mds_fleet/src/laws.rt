//! Laws of what reports do to an operator's rows. Each function's contract is the law; the functions do nothing.
ghost use Rattle.mds_fleet.specs.Laws.{KeepsLimit, LeavesOthers, FollowsHistory, AlwaysLeads, LeadsOn};

/// No report takes the number of rows past the limit.
pub fn keeps_limit()
    ensures { KeepsLimit }
{}

/// A report changes no other device's row.
pub fn leaves_others()
    ensures { LeavesOthers }
{}

/// Each device's row follows from the list of reports and removals alone: it is the device's last accepted report after
/// its last removal, with the timestamp of the first report of the unbroken run of its accepted reports, up to that
/// one, that have the same state.
pub fn follows_history()
    ensures { FollowsHistory }
{}

/// Each list of reports and removals, taken from no rows on, results in rows.
pub fn always_leads()
    ensures { AlwaysLeads }
{}

/// Where a list results in rows, the list with one more report or removal results in what that one makes of these rows,
/// and in nothing else.
pub fn leads_on()
    ensures { LeadsOn }
{}
