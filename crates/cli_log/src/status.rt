//! Says who owns a city's journal in etcd, and how far it goes.
ghost use Rattle.std.specs.Prelude.{◌≡◌, IfOk, OnOk, string_bytes};
ghost use Rattle.cli_log.specs.Status.{has_moved, age, with_number, with_owner, with_generation, with_position, with_beat, with_cluster, status_text};

use crate::end::{LogCommandEnd, end_of_fault};
use crate::host::LogHost;
use journal_cluster::ClusterEngine;
use journal_gateway::Dial;
use journal_register::{Extent, Generation, Look, NOBODY, Owner};
use journal_remote::Engine;
use std::alloc::{AllocError, Global};
use std::thread;
use std::time::Duration;

/// How many milliseconds lie between two looks: more than an owner stays silent.
const BETWEEN_MILLIS: u64 = 1500;

/// What two looks showed.
#[derive(Clone, Copy, Debug, PartialEq, Eq)]
pub struct LookPair {
    /// What the last one showed.
    pub last: Look,
    /// Whether the one before showed another owner or head.
    pub has_moved: bool,
}

/// Looks at a register.
///
/// # Errors
///
/// Why nothing that can be read came back.
pub(crate) fn look_at<D: Dial>(engine: &mut ClusterEngine<'_, D>) -> Result<Look, LogCommandEnd> {
    match engine.look() {
        Some(look) => Ok(look),
        None => Err(end_of_silence(engine)),
    }
}

/// How a command ends where nothing that decides came back.
pub(crate) fn end_of_silence<D: Dial>(engine: &ClusterEngine<'_, D>) -> LogCommandEnd {
    match engine.last_fault() {
        Some(fault) => end_of_fault(fault),
        None => LogCommandEnd::BadAnswer,
    }
}

/// What two looks, one after the other, showed.
fn look_pair(first: &Look, last: Look) -> LookPair
    ensures last { result.last ≡ last }
    ensures moved { result.has_moved ≡ has_moved first.now last }
{
    let has_moved = !first.owner.is(last.owner) || !first.head.is(last.head);
    LookPair { last, has_moved }
}

/// Appends words, and a number behind them.
#[tactic(auto, unfolding(crate::specs::Status::with_number))]
fn push_number(alloc: Global, text: &mut String, words: &str, number: u64) -> Result<(), AllocError>
    ensures { OnOk result (string_bytes text.new ≡ with_number (string_bytes text.old) words.now number) }
{
    let digits = number.to_string(alloc)?;
    text.push_str(words)?;
    text.push_str(digits.as_str())
}

/// Appends who owns a register.
#[tactic(auto, unfolding(crate::specs::Status::with_owner))]
fn push_owner(alloc: Global, text: &mut String, owner: Owner) -> Result<(), AllocError>
    ensures { OnOk result (string_bytes text.new ≡ with_owner (string_bytes text.old) owner) }
{
    if owner.is(NOBODY) {
        text.push_str("owner: none")
    } else if owner.nonce == 0 {
        push_number(
            alloc,
            text,
            "owner: none, handed over in epoch ",
            owner.epoch,
        )
    } else {
        push_number(alloc, text, "owner: epoch ", owner.epoch)?;
        push_number(alloc, text, ", nonce ", owner.nonce)
    }
}

/// Appends which writing of the journal it is, in a line.
#[tactic(auto, unfolding(crate::specs::Status::with_generation))]
fn push_generation(
    alloc: Global,
    text: &mut String,
    generation: Generation,
) -> Result<(), AllocError>
    ensures { OnOk result (string_bytes text.new ≡ with_generation (string_bytes text.old) generation) }
{
    push_number(alloc, text, "\ngeneration: ", generation.epoch)?;
    push_number(alloc, text, ".", generation.attempt)
}

/// Appends how far a journal goes, in a line.
#[tactic(auto, unfolding(crate::specs::Status::with_position))]
fn push_position(alloc: Global, text: &mut String, extent: Extent) -> Result<(), AllocError>
    ensures { OnOk result (string_bytes text.new ≡ with_position (string_bytes text.old) extent) }
{
    push_number(alloc, text, "\nposition: ", extent.end.position)?;
    push_number(alloc, text, " bytes, ", extent.chunks)?;
    push_number(alloc, text, " chunks, ", extent.end.count)?;
    text.push_str(" texts")
}

/// What stands before how long ago the register changed.
fn age(has_moved: bool) -> &'static str
    ensures { result.now ≡ age has_moved }
{
    if has_moved {
        ", less than "
    } else {
        ", more than "
    }
}

/// Appends how often an owner has shown that it lives, and how long ago the register changed, in a line.
#[tactic(auto, unfolding(crate::specs::Status::with_beat))]
fn push_beat(alloc: Global, text: &mut String, beat: u64, has_moved: bool) -> Result<(), AllocError>
    ensures { OnOk result (string_bytes text.new ≡ with_beat (string_bytes text.old) beat has_moved) }
{
    push_number(alloc, text, "\nbeat: ", beat)?;
    push_number(alloc, text, age(has_moved), BETWEEN_MILLIS)?;
    text.push_str(" ms old")
}

/// Appends the cluster, and its revision, in a line.
#[tactic(auto, unfolding(crate::specs::Status::with_cluster))]
fn push_cluster(alloc: Global, text: &mut String, look: &Look) -> Result<(), AllocError>
    ensures { OnOk result (string_bytes text.new ≡ with_cluster (string_bytes text.old) look.now) }
{
    push_number(alloc, text, "\ncluster: ", look.cluster)?;
    push_number(alloc, text, ", revision ", look.revision)
}

/// What two looks showed, in five lines.
#[tactic(auto, unfolding(crate::specs::Status::status_text))]
pub fn status_text(alloc: Global, seen: &LookPair) -> Result<String, AllocError>
    ensures { IfOk result (λ text. string_bytes text ≡ status_text seen.now) }
{
    let head = seen.last.head;
    let mut text = String::new(alloc);
    push_owner(alloc, &mut text, seen.last.owner)?;
    push_generation(alloc, &mut text, head.extent.generation)?;
    push_position(alloc, &mut text, head.extent)?;
    push_beat(alloc, &mut text, head.beat, seen.has_moved)?;
    push_cluster(alloc, &mut text, &seen.last)?;
    Ok(text)
}

/// Looks twice, and prints what the looks showed.
///
/// # Errors
///
/// Why nothing that can be read came back; `NotPrinted`, `NoMemory`.
pub(crate) fn print_status<R: LogHost, D: Dial>(
    rt: &R,
    engine: &mut ClusterEngine<'_, D>,
) -> Result<(), LogCommandEnd> {
    let first = look_at(engine)?;
    thread::sleep(rt, Duration::from_millis(BETWEEN_MILLIS));
    let last = look_at(engine)?;
    let text = status_text(rt.alloc(), &look_pair(&first, last))?;
    match println!(rt; "{text}") {
        Ok(()) => Ok(()),
        Err(_) => Err(LogCommandEnd::NotPrinted),
    }
}
