//! What a report is about.
use journal_samples::RuleSample;
use mds_catalog::Catalogue;
use mds_text::{Id, Moment};

/// An operator with what was sampled of it.
#[derive(Clone, Copy)]
pub struct ReportedOperator<'a> {
    /// Its identifier.
    pub id: Id,
    /// Its name for people, as bytes of UTF-8; empty where it has none.
    pub name: &'a [u8],
    /// Its samples.
    pub samples: &'a [RuleSample],
    /// What was published by the last moment. It tells the names and bounds of policies and their rules.
    pub catalogue: &'a Catalogue,
}

/// The moments of a report: from one to another, so many milliseconds apart.
#[derive(Clone, Copy)]
pub struct ReportSpan {
    /// The first moment, in milliseconds since the Unix epoch.
    pub first: Moment,
    /// The last one, in milliseconds since the Unix epoch.
    pub last: Moment,
    /// The milliseconds between two moments.
    pub every: u64,
}

/// What a page says of its report.
#[derive(Clone, Copy)]
pub struct ReportHead<'a> {
    /// The city's title, as bytes of UTF-8; empty where it has none, and then the page says so.
    pub city: &'a [u8],
    /// The zone in which times are local, in words, as bytes of UTF-8.
    pub zone: &'a [u8],
    /// When the report was made, in milliseconds since the Unix epoch; `None` where no clock said so.
    pub made: Option<Moment>,
    /// The moment up to which it was asked for, where that was still to come, in milliseconds since the Unix epoch: then
    /// it ends when it was made.
    pub to_come: Option<Moment>,
    /// The program that made it, with its version, as bytes of UTF-8.
    pub program: &'a [u8],
    /// Its moments.
    pub span: ReportSpan,
}
