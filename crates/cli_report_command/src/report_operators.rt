//! The operators of a report: each is worked out by itself, as many at once as there are processors.
ghost use Rattle.std.specs.Prelude.{◌≡◌, ◌<◌, ◌≤◌, ℕ, All, IfOk, drop, length, slice_index, slice_index_or, take, vec_len};
ghost use Rattle.mds_request.specs.Configuration.{configuration};
ghost use Rattle.cli_report_command.specs.Parts.{IsPartOf};

use crate::report_files::{ReportBytes, ReportFiles};
use crate::report_rows::{operator_report, report_end, report_head};
use crate::report_samples::{OperatorSamples, ReportJournal, SamplingFault, sample_operator};
use cli_journal::ExitCause;
use cli_report::{ReportHead, ReportedOperator};
use journal_recovery::{Cause, Fault};
use journal_samples::SampleFault;
use mds_request::Config;
use mds_text::Moment;
use server_app::OperatorNames;
use std::alloc::{AllocError, AllocGlobal, Global};
use std::io::Eprint;
use std::thread::{Threads, available_parallelism, map_indices};

/// What a report is made of.
#[derive(Clone, Copy)]
pub struct ReportSource<'a> {
    /// The configuration, whose operators and zone count.
    pub config: &'a Config,
    /// The operators' names, in the configuration's order.
    pub names: &'a OperatorNames,
    /// The places of the operators that are reported, in the configuration's order.
    pub places: &'a [usize],
    /// The journals, in the order of their latest entries.
    pub journals: &'a [ReportJournal<'a>],
    /// The moments, which ascend.
    pub moments: &'a [Moment],
    /// What the page says of the report, with the first and the last moment.
    pub head: ReportHead<'a>,
}

impl ReportSource<'_> {
    /// The name of the operator at a place of the configuration; empty where it has none.
    fn name(&self, place: usize) -> &[u8] {
        match self.names.operators().get(place) {
            Some(operator) => match &operator.name {
                Some(name) => name.as_bytes(),
                None => b"",
            },
            None => b"",
        }
    }
}

/// What the files of a report say of an operator.
#[derive(Drop)]
pub struct OperatorPart {
    /// Its bytes of each file.
    pub bytes: ReportBytes,
    /// How many samples it has.
    pub samples: usize,
}

/// How much of a report is written.
#[derive(Clone, Copy)]
struct Written {
    operators: usize,
    samples: usize,
}

/// Why the program ends where a journal can't be sampled. The moments of a report ascend.
fn exit_of_sampling(fault: SamplingFault) -> ExitCause {
    match fault.fault {
        SampleFault::Refused(entry, status) => ExitCause::ReportEntry(
            fault.folder,
            Fault {
                entry,
                cause: Cause::Refused(status),
            },
        ),
        SampleFault::Unordered | SampleFault::NoMemory => ExitCause::NoMemory,
    }
}

/// What a report says of the operator at a place.
///
/// # Errors
///
/// `ReportEntry`, `NoMemory`.
fn part_of(
    alloc: Global,
    source: &ReportSource<'_>,
    place: usize,
) -> Result<OperatorPart, ExitCause>
    requires { place < length (configuration source.now.config.now).operators }
    ensures { IfOk result (IsPartOf source.now place) }
{
    let config = source.config;
    let found = match sample_operator(alloc, config, place, source.journals, source.moments) {
        Ok(found) => found,
        Err(fault) => return Err(exit_of_sampling(fault)),
    };
    let OperatorSamples { samples, replay } = found;
    let operator = ReportedOperator {
        id: config.operators()[place].id,
        name: source.name(place),
        samples: &samples,
        catalogue: replay.catalogue(),
    };
    let bytes = operator_report(alloc, config.zone(), source.head.span, &operator)?;
    Ok(OperatorPart {
        bytes,
        samples: samples.len(),
    })
}

/// What a report says of the operators at these places, in their order: each is worked out in a thread of its own, where
/// one can be had.
///
/// # Errors
///
/// Memory ran out.
fn parts_of<R: Threads + Sync>(
    rt: &R,
    alloc: Global,
    source: &ReportSource<'_>,
    places: &[usize],
) -> Result<Vec<Result<OperatorPart, ExitCause>>, AllocError>
    requires { All (λ place. place < length (configuration source.now.config.now).operators) places.now }
    ensures long { IfOk result (λ parts. vec_len parts ≡ length places.now) }
    ensures each { IfOk result (λ parts. (number : ℕ) (d : _) → number < length places.now
        → IfOk (slice_index_or parts.items number d) (IsPartOf source.now (slice_index places.now number))) }
{
    let work = |number: usize| -> Result<OperatorPart, ExitCause>
        requires { (number < length places.now) × (slice_index places.now number < length (configuration source.now.config.now).operators) }
        ensures { IfOk result (IsPartOf source.entry.now (slice_index places.entry.now number)) }
    { part_of(alloc, source, places[number]) };
    map_indices(rt, alloc, places.len(), &work)
}

/// How many operators are worked out at once: as many as there are processors.
fn most_at_once<R: Threads>(rt: &R) -> usize
    ensures { 1 ≤ result }
{
    match available_parallelism(rt) {
        Ok(processors) => processors.get(),
        Err(_) => 1,
    }
}

/// The places whose operators are worked out next, as many as are at once, and those that are left.
fn next_places(left: &[usize], most: usize) -> (&[usize], &[usize])
    requires { 0 < most }
    ensures next { result.0.now ≡ take most left.now }
    ensures rest { result.1.now ≡ drop most left.now }
{
    left.split_at(most.min(left.len()))
}

/// Appends what a report says of operators, in their order. Each one that is written is told on standard error.
///
/// # Errors
///
/// The first one's that isn't worked out, `Report` with `NotWritten`.
fn append_parts<R: Eprint>(
    rt: &R,
    files: &mut ReportFiles,
    written: &mut Written,
    all: usize,
    parts: Vec<Result<OperatorPart, ExitCause>>,
) -> Result<(), ExitCause> {
    for part in parts {
        let part = part?;
        files.append(&part.bytes)?;
        written.samples = written.samples.saturating_add(part.samples);
        written.operators = written.operators.saturating_add(1);
        let through = written.operators;
        let _ = eprintln!(rt; "ruffletuff: {through} of {all} operators are through");
    }
    Ok(())
}

/// Appends what a report says of its operators, in the configuration's order, and gives how many samples there are. As
/// many operators are worked out at once as there are processors, and written before the next ones are begun.
///
/// # Errors
///
/// `ReportEntry`, `Report` with `NotWritten`, `NoMemory`.
pub fn append_operators<R: Eprint + Threads + Sync + AllocGlobal>(
    rt: &R,
    files: &mut ReportFiles,
    source: &ReportSource<'_>,
) -> Result<usize, ExitCause>
    requires { All (λ place. place < length (configuration source.now.config.now).operators) source.now.places.now }
{
    files.append(&report_head(rt.alloc(), source.config.zone(), &source.head)?)?;
    let most = most_at_once(rt);
    let mut written = Written {
        operators: 0,
        samples: 0,
    };
    let mut left = source.places;
    'rounds: while !left.is_empty() {
        let (next, rest) = next_places(left, most);
        let parts = parts_of(rt, rt.alloc(), source, next)?;
        append_parts(rt, files, &mut written, source.places.len(), parts)?;
        left = rest;
    }
    files.append(&report_end(rt.alloc())?)?;
    Ok(written.samples)
}
