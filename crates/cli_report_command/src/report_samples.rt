//! What is sampled of an operator over the journals of a report.
ghost use Rattle.std.specs.Prelude.{◌≡◌, ◌≤◌, ◌<◌, ◌++◌, length, map, IfOk, OnOk};
ghost use Rattle.mds_request.specs.Configuration.{configuration};
ghost use Rattle.journal_entry.specs.Entries.{entry_of};
ghost use Rattle.journal_samples.specs.Samples.{samples_by};
ghost use Rattle.journal_samples.specs.Standing.{new_standing};
ghost use Rattle.cli_report_command.specs.Reports.{count_told, samples_told};

use journal_entry::JournalEntry;
use journal_folder::latest_moment;
use journal_samples::{OperatorReplay, RuleSample, SampleFault, count_covered};
use mds_request::Config;
use mds_text::Moment;
use std::alloc::{AllocError, Global};

/// A journal that a report is made of.
#[derive(Drop)]
pub struct ReportJournal<'a> {
    /// The number of its folder among those of the report, from 0.
    pub folder: usize,
    /// Its entries, behind the head.
    pub entries: Vec<JournalEntry<'a>>,
}

impl ReportJournal<'_> {
    /// The latest moment of its entries, in milliseconds since the Unix epoch; 0 where there are none.
    pub fn latest(&self) -> i64 {
        latest_moment(&self.entries).map_or(0, |at| at.get())
    }
}

/// Why a journal can't be sampled.
#[derive(Clone, Copy, Debug, PartialEq, Eq)]
pub struct SamplingFault {
    /// The number of its folder among those of the report, from 0.
    pub folder: usize,
    /// What is wrong.
    pub fault: SampleFault,
}

/// What is sampled of an operator, and the replay of the last journal that told of it.
#[derive(Drop)]
pub struct OperatorSamples<'a> {
    pub samples: Vec<RuleSample>,
    pub replay: OperatorReplay<'a>,
}

/// How many of these moments, from the first one on, a journal tells of: the last one of all.
fn count_told(is_last: bool, entries: &[JournalEntry<'_>], moments: &[Moment]) -> usize
    ensures count { result ≡ count_told is_last (map entry_of entries.now) moments.now }
    ensures within { result ≤ length moments.now }
{
    if is_last {
        moments.len()
    } else {
        count_covered(latest_moment(entries), moments)
    }
}

/// Appends what a journal tells of an operator at moments, and gives its replay.
///
/// # Errors
///
/// As `OperatorReplay::samples`.
fn push_samples<'a>(
    alloc: Global,
    samples: &mut Vec<RuleSample>,
    config: &'a Config,
    place: usize,
    entries: &[JournalEntry<'_>],
    moments: &[Moment],
) -> Result<OperatorReplay<'a>, SampleFault>
    requires { place < length (configuration config.now).operators }
    ensures { OnOk result (samples.new.items ≡ samples.old.items
        ++ samples_by (new_standing (configuration config.now) place) (map entry_of entries.now) moments.now) }
{
    let mut replay = OperatorReplay::new(alloc, config, place)?;
    let found = replay.samples(alloc, entries, moments)?;
    samples.extend_from_slice(&found)?;
    Ok(replay)
}

impl<'a> OperatorSamples<'a> {
    /// Appends what a journal tells of the operator at moments. Where there are none, nothing is read.
    ///
    /// # Errors
    ///
    /// The journal, with its first entry that isn't answered with success; memory ran out.
    fn append(
        &mut self,
        alloc: Global,
        config: &'a Config,
        place: usize,
        journal: &ReportJournal<'_>,
        moments: &[Moment],
    ) -> Result<(), SamplingFault>
        requires { place < length (configuration config.now).operators }
        ensures { OnOk result (self.new.samples.items ≡ self.old.samples.items
            ++ samples_by (new_standing (configuration config.now) place) (map entry_of journal.now.entries.items) moments.now) }
    {
        if moments.is_empty() {
            return Ok(());
        }
        let samples = &mut self.samples;
        match push_samples(alloc, samples, config, place, &journal.entries, moments) {
            Ok(replay) => {
                self.replay = replay;
                Ok(())
            }
            Err(fault) => Err(SamplingFault {
                folder: journal.folder,
                fault,
            }),
        }
    }
}

/// What is sampled of the operator at this place of the configuration, at moments that ascend. Journals stand in the
/// order of their latest entries: each tells of the moments that it has a later entry for and none before it, and the
/// last of all that are left.
///
/// # Errors
///
/// The first journal with an entry that isn't answered with success; memory ran out.
pub fn sample_operator<'a>(
    alloc: Global,
    config: &'a Config,
    place: usize,
    journals: &[ReportJournal<'_>],
    moments: &[Moment],
) -> Result<OperatorSamples<'a>, SamplingFault>
    requires { place < length (configuration config.now).operators }
    ensures { IfOk result (λ s. s.samples.items ≡ samples_told (new_standing (configuration config.now) place)
        (map (λ j. map entry_of j.entries.items) journals.now) moments.now) }
{
    let Ok(replay) = OperatorReplay::new(alloc, config, place) else {
        return Err(SamplingFault {
            folder: 0,
            fault: SampleFault::NoMemory,
        });
    };
    let mut found = OperatorSamples {
        samples: Vec::new(alloc),
        replay,
    };
    let mut done = 0;
    for (number, journal) in journals.iter().enumerate() {
        let is_last = number + 1 == journals.len();
        let left = &moments[done..];
        let count = count_told(is_last, &journal.entries, left);
        found.append(alloc, config, place, journal, &left[..count])?;
        done += count;
    }
    Ok(found)
}
