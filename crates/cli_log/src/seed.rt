//! Puts a folder's journal into etcd, where the city has none.
ghost use Rattle.std.specs.Prelude.{◌≡◌, ◌<◌, length, IfOk, IfErr, OnOk};
ghost use Rattle.cli_log.specs.Seeds.{AreWhole, Declines, first_claim};

use crate::end::LogCommandEnd;
use crate::folder::{LockedJournal, locked_journal};
use crate::host::LogHost;
use crate::status::{end_of_silence, look_at};
use journal_cluster::ClusterEngine;
use journal_file::{Storage, StorageFault, read};
use journal_gateway::Dial;
use journal_register::{NOBODY, Outcome, Owner, Transaction};
use journal_remote::{Engine, RemoteStorage, Tenure};
use std::alloc::Global;
use std::random::RandomSource;

/// A random number that isn't 0.
///
/// # Errors
///
/// `Unusable` where the machine has none.
fn nonce_of<R: RandomSource>(rt: &R) -> Result<u64, LogCommandEnd>
    ensures { IfOk result (λ nonce. 0 < nonce) }
{
    let mut drawn = [0u8; 8];
    if rt.fill_bytes(&mut drawn).is_err() {
        return Err(LogCommandEnd::Unusable);
    }
    Ok(u64::from_be_bytes(drawn).max(1))
}

/// Whether bytes are a journal whose last record is whole.
///
/// # Errors
///
/// `NoJournal` where there are none, `Damaged`, `NoMemory`.
fn check_whole(alloc: Global, bytes: &[u8]) -> Result<(), LogCommandEnd>
    ensures some { OnOk result (0 < length bytes.now) }
    ensures whole { OnOk result (AreWhole bytes.now) }
    ensures refused { IfErr result (Declines bytes.now) }
{
    if bytes.is_empty() {
        return Err(LogCommandEnd::NoJournal);
    }
    let found = read(alloc, 0, bytes)?;
    if found.whole != bytes.len() {
        return Err(LogCommandEnd::Damaged);
    }
    Ok(())
}

/// The claim of a register whose owner a look shows; `None` where somebody has claimed it.
fn first_claim(seen: Owner, nonce: u64) -> Option<Transaction>
    ensures { result ≡ first_claim seen nonce }
{
    if seen.is(NOBODY) {
        Transaction::claim(seen, nonce)
    } else {
        None
    }
}

/// Claims a register that nobody has claimed yet.
///
/// # Errors
///
/// `Claimed`; why nothing that decides came back.
fn claim<D: Dial>(engine: &mut ClusterEngine<'_, D>, nonce: u64) -> Result<Tenure, LogCommandEnd> {
    let seen = look_at(engine)?;
    let Some(claim) = first_claim(seen.owner, nonce) else {
        return Err(LogCommandEnd::Claimed);
    };
    match claim.outcome(engine.transact(&claim, &[])) {
        Outcome::Applied => {}
        Outcome::Unknown => return Err(end_of_silence(engine)),
        Outcome::Overtaken | Outcome::Elsewhere => return Err(LogCommandEnd::Claimed),
    }
    match Tenure::of_claim(&claim, &look_at(engine)?) {
        Some(tenure) => Ok(tenure),
        None => Err(LogCommandEnd::Claimed),
    }
}

/// Puts a journal's bytes into a register that nobody has claimed yet, and returns how many chunks these are.
///
/// # Errors
///
/// `Claimed`; `NotSeeded`; why nothing that decides came back; `NoMemory`.
fn put_journal<D: Dial>(
    alloc: Global,
    engine: ClusterEngine<'_, D>,
    bytes: &[u8],
    nonce: u64,
) -> Result<u64, LogCommandEnd> {
    let mut engine = engine;
    let tenure = claim(&mut engine, nonce)?;
    let mut storage = RemoteStorage::new(alloc, engine, tenure, 1);
    match storage.append(bytes) {
        Ok(()) => Ok(storage.tenure().head.extent.chunks),
        Err(StorageFault::NoMemory) => Err(LogCommandEnd::NoMemory),
        Err(StorageFault::Failed) => Err(LogCommandEnd::NotSeeded),
    }
}

/// Puts a folder's journal, which no other program has meanwhile, into a register that nobody has claimed yet, and prints
/// how many bytes and chunks these are.
///
/// # Errors
///
/// As `LogCommandEnd` says.
pub(crate) fn seed_journal<R: LogHost, D: Dial>(
    rt: &R,
    folder: &str,
    engine: ClusterEngine<'_, D>,
) -> Result<(), LogCommandEnd> {
    let LockedJournal { file: _file, bytes } = locked_journal(rt, folder)?;
    check_whole(rt.alloc(), &bytes)?;
    let chunks = put_journal(rt.alloc(), engine, &bytes, nonce_of(rt)?)?;
    let length = bytes.len();
    match println!(rt; "{length} bytes, {chunks} chunks") {
        Ok(()) => Ok(()),
        Err(_) => Err(LogCommandEnd::NotPrinted),
    }
}
