//! Which reports of a device compaction keeps: those that are enough for its row.
ghost use Rattle.std.specs.Prelude.{◌≡◌, [], map, MatchOption, bytes_eq};
ghost use Rattle.mds_fleet.specs.Books.{report_document};
ghost use Rattle.journal_laws.specs.Compaction.{ThinsTo};

use mds_fleet::Report;

/// The reports of a device that compaction keeps, by index: a single one where the last report began its run.
#[derive(Clone, Copy, Debug, PartialEq, Eq)]
pub struct KeptReports {
    /// The report that began the run of the last one's state.
    pub begun: usize,
    /// The last report.
    pub last: usize,
}

/// Whether two reports have the same state.
fn is_same_state(report: &Report, other: &Report) -> bool
    ensures { result ≡ bytes_eq (report_document report.now).state (report_document other.now).state }
{
    report.state() == other.state()
}

/// Which of a device's accepted reports compaction keeps, given in the order in which they were accepted, since the
/// device was last removed: the last one, and the one that began the run of its state. They lead to the same row as all
/// of them (`crate::laws::compacted_row_is_the_same`). `None` where there is no report.
pub fn reports_to_keep(reports: &[Report]) -> Option<KeptReports>
    ensures { MatchOption result (reports.now ≡ []) (λ kept. ThinsTo (map report_document reports.now) kept.begun kept.last) }
{
    if reports.is_empty() {
        return None;
    }
    let mut begun = 0;
    for place in 1..reports.len() {
        if !is_same_state(&reports[place - 1], &reports[place]) {
            begun = place;
        }
    }
    Some(KeptReports {
        begun,
        last: reports.len() - 1,
    })
}
