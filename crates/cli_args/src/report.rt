//! The arguments of `report`.
ghost use Rattle.std.specs.Prelude.{◌≡◌, ◌≤◌, IfOk};
ghost use Rattle.cli_args.specs.declared.report.TheConstants.{MOST_MINUTES};

use crate::report_words::operators_in;
use mds_text::Id;
use std::alloc::{AllocError, Global};

/// The minutes from one moment of a report to the next, where `--every` isn't given.
pub const EVERY: u64 = 5;

/// The most minutes from one moment of a report to the next: a day.
pub const MOST_MINUTES: u64 = 1440;

/// The arguments of `report`: of which journals, over which time, and where it is written.
#[derive(Clone, Copy)]
pub struct ReportOptions<'a> {
    /// Folders of a city, or files that are journals by themselves; one at least.
    pub folders: &'a [String],
    /// The configuration's file.
    pub config: &'a str,
    /// The first moment that is sampled, as it is given: it may be in the configuration's zone.
    pub from: &'a str,
    /// The moment before which the last sample is, as it is given.
    pub to: &'a str,
    /// Minutes from one sample to the next, from 1 to `MOST_MINUTES`.
    pub every: u64,
    /// The folder into which the report is written.
    pub out: &'a str,
    // All options. An identifier is behind each `--operator`.
    pub(crate) options: &'a [String],
    ghost least: { 1 ≤ every },
    ghost most: { every ≤ MOST_MINUTES },
}

impl ReportOptions<'_> {
    ghost use Rattle.cli_args.specs.Reports.{report_view};

    /// The operators that are reported, as they are given; none where all are.
    ///
    /// # Errors
    ///
    /// Memory ran out.
    pub fn operators(&self, alloc: Global) -> Result<Vec<Id>, AllocError>
        ensures { IfOk result (λ ids. ids.items ≡ (report_view self.now).operators) }
    {
        operators_in(alloc, self.options)
    }
}
