//! Why no report is made, where its journals aren't why.
ghost use Rattle.std.specs.Prelude.{◌≡◌};
ghost use Rattle.cli_journal.specs.Reports.{file_name, report_status, report_message, span_of};

use mds_text::{Id, Moment};

/// A file of a report.
#[derive(Clone, Copy, Debug, PartialEq, Eq)]
pub enum ReportFile {
    /// A row for each sample of a rule.
    Verdicts,
    /// A row for each day of a rule.
    Summary,
    /// The page.
    Page,
}

/// The files of a report.
pub const REPORT_FILES: [ReportFile; 3] = [
    ReportFile::Verdicts,
    ReportFile::Summary,
    ReportFile::Page,
];

impl ReportFile {
    /// The file's name in the report's folder.
    pub fn name(self) -> &'static str
        ensures { result.now ≡ file_name self }
    {
        match self {
            ReportFile::Verdicts => "verdicts.csv",
            ReportFile::Summary => "summary.csv",
            ReportFile::Page => "report.html",
        }
    }
}

/// Why no report is made, where its journals aren't why.
#[derive(Clone, Copy)]
pub enum ReportFault {
    /// The value of `--from` is no moment.
    NoFirst,
    /// The value of `--to` is no moment.
    NoLast,
    /// The moment of `--to` isn't later than that of `--from`.
    NoTime,
    /// This operator isn't in the configuration.
    NoOperator(Id),
    /// The folder for the report isn't there, or can't be looked at.
    NoFolder,
    /// The folder for the report has this file already.
    Present(ReportFile),
    /// The report couldn't be written.
    NotWritten,
}

impl ReportFault {
    /// The program's exit status: 2 for wrong arguments, 4 for a folder that can't be used, 7 for what can't be written.
    pub fn status(self) -> u8
        ensures { result ≡ report_status self }
    {
        match self {
            ReportFault::NoFirst
            | ReportFault::NoLast
            | ReportFault::NoTime
            | ReportFault::NoOperator(_) => 2,
            ReportFault::NoFolder | ReportFault::Present(_) => 4,
            ReportFault::NotWritten => 7,
        }
    }

    /// The first line on standard error.
    pub fn message(&self) -> &'static str
        ensures { result.now ≡ report_message self.now }
    {
        match self {
            ReportFault::NoFirst | ReportFault::NoLast => "ruffletuff: this is no moment",
            ReportFault::NoTime => {
                "ruffletuff: the moment of --to isn't later than that of --from"
            }
            ReportFault::NoOperator(_) => "ruffletuff: the operator isn't in the configuration",
            ReportFault::NoFolder => "ruffletuff: the folder for the report isn't there",
            ReportFault::Present(_) => "ruffletuff: the folder has a report already",
            ReportFault::NotWritten => "ruffletuff: the report couldn't be written",
        }
    }
}

/// The first moment of a report, and the one before which its last is.
///
/// # Errors
///
/// `NoFirst` or `NoLast` where one of them is none, `NoTime` where the second isn't later.
pub fn span_of(from: Option<Moment>, to: Option<Moment>) -> Result<(Moment, Moment), ReportFault>
    ensures { result ≡ span_of from to }
{
    let Some(from) = from else {
        return Err(ReportFault::NoFirst);
    };
    let Some(to) = to else {
        return Err(ReportFault::NoLast);
    };
    if from < to {
        Ok((from, to))
    } else {
        Err(ReportFault::NoTime)
    }
}
