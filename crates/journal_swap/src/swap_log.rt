//! A log whose file is replaced by a compacted one while it is appended to.
ghost use Rattle.std.specs.Prelude.{◌≡◌, ◌++◌, ℕ, List, map, true, false, IfOk, OnOk, OnErr, IsErrOf};
ghost use Rattle.journal_file.specs.Groups.{are_taken};
ghost use Rattle.journal_swap.specs.Swapped.{IsRolled, IsCaughtUp};

use crate::catch_up_buffer::CatchUpBuffer;
use crate::compacted_log::{CatchUpFault, CompactedLog};
use crate::compaction_source::CompactionSource;
use crate::equivalence::Equivalence;
use journal_file::{AppendFault, HasLogEnd, Log, ReadFault, SyncFault};
use std::alloc::Global;
use std::marker::PhantomData;

/// The most payloads that the list may have before an append: 2^62.
const MOST_COUNT: u64 = 4_611_686_018_427_387_904;

/// A log whose list is all that was appended, and whose file holds that list or one with the same effect. The
/// compaction side (`beside`) supplies compacted logs, one of which takes the place in [`Log::sync`].
#[derive(Drop)]
pub struct SwapLog<L: HasLogEnd, P: Equivalence, B: CompactionSource<L, P>> {
    alloc: Global,
    log: L,
    beside: B,
    /// How many payloads the list has.
    count: u64,
    /// Copies of the payloads appended after a log end.
    kept: CatchUpBuffer,
    /// Whether a compacted log took this one's place.
    is_exchanged: bool,
    /// Whether it isn't known which file stands in the log's place.
    is_broken: bool,
    of: PhantomData<P>,
}

/// Appends payloads to a log, wherever it ends.
///
/// # Errors
///
/// The log's, and `Unknown` in place of `Conflict`.
fn append_to<L: HasLogEnd>(log: &mut L, texts: &[Vec<u8>]) -> Result<(), AppendFault>
    ensures appended { OnOk result ((list : List (List ℕ)) → L.may_be log.old list → L.may_be log.new (list ++ map (λ v. v.items) texts.now)) }
    ensures unchanged { OnErr result ((list : List (List ℕ)) → L.may_be log.old list → L.may_be log.new list) }
    ensures conflict { IsErrOf result AppendFault.Conflict → true ≡ false }
    ensures untaken { IsErrOf result AppendFault.Untaken → are_taken (map (λ v. v.items) texts.now) ≡ false }
{
    let count = log.log_end().count;
    match log.append(count, texts) {
        Ok(_) => Ok(()),
        Err(AppendFault::Conflict) => Err(AppendFault::Unknown),
        Err(fault) => Err(fault),
    }
}

/// Appends the copies that are kept after its log end to a compacted log, and syncs it.
///
/// # Errors
///
/// `NotKept` where they aren't kept, `NotWritten` or `NoMemory` where they can't be appended or synced.
fn catch_up<L: HasLogEnd, P: Equivalence>(
    shorter: CompactedLog<L, P>,
    kept: &CatchUpBuffer,
) -> Result<L, CatchUpFault>
    ensures synced { IfOk result (λ log. L.is_synced log) }
    ensures kept { OnOk result (kept.now.is_keeping ≡ true) }
    ensures caught { IfOk result (λ log. IsCaughtUp P.same (L.may_be log) kept.now.seal (map (λ v. v.items) kept.now.texts.items)) }
{
    let (mut log, seal) = shorter.into_parts();
    if !kept.is_behind(seal) {
        return Err(CatchUpFault::NotKept);
    }
    append_to(&mut log, &kept.texts)?;
    log.sync()?;
    Ok(log)
}

impl<L: HasLogEnd, P: Equivalence, B: CompactionSource<L, P>> SwapLog<L, P, B> {
    /// A log whose file may be replaced from now on, by compacted logs of this compaction side.
    pub fn new(alloc: Global, log: L, beside: B) -> SwapLog<L, P, B>
        ensures { (list : List (List ℕ)) → L.may_be log list
            → IsRolled P.same (L.may_be result.log) result.is_exchanged result.kept.is_keeping result.kept.seal
            (map (λ v. v.items) result.kept.texts.items) result.count list }
    {
        let count = log.log_end().count;
        SwapLog {
            alloc,
            log,
            beside,
            count,
            kept: CatchUpBuffer::new_idle(alloc),
            is_exchanged: false,
            is_broken: false,
            of: PhantomData,
        }
    }

    /// Puts a compacted log in the log's place, where copies of what it lacks are kept; else the log stays. Returns
    /// whether it took the place.
    ///
    /// # Errors
    ///
    /// It isn't known which file stands in the place.
    fn swap_in(&mut self, shorter: CompactedLog<L, P>) -> Result<bool, SyncFault>
        ensures rolled { (list : List (List ℕ))
            → IsRolled P.same (L.may_be self.old.log) self.old.is_exchanged self.old.kept.is_keeping self.old.kept.seal
            (map (λ v. v.items) self.old.kept.texts.items) self.old.count list
            → IsRolled P.same (L.may_be self.new.log) self.new.is_exchanged self.new.kept.is_keeping self.new.kept.seal
            (map (λ v. v.items) self.new.kept.texts.items) self.new.count list }
        ensures synced { IfOk result (λ is_taken. is_taken ≡ true → L.is_synced self.new.log) }
        ensures count { self.new.count ≡ self.old.count }
    {
        let Ok(log) = catch_up(shorter, &self.kept) else {
            self.kept.forget();
            self.beside
                .on_swap_tried(false, self.log.log_end().position);
            return Ok(false);
        };
        if self.beside.replace(&log).is_err() {
            self.is_broken = true;
            self.beside
                .on_swap_tried(false, self.log.log_end().position);
            return Err(SyncFault);
        }
        self.log = log;
        self.is_exchanged = true;
        self.kept.forget();
        self.beside.on_swap_tried(true, self.log.log_end().position);
        Ok(true)
    }

    /// Puts a compacted log that is ready in the log's place, caught up and synced; where there is none, or copies of
    /// what it lacks aren't kept, syncs the log.
    ///
    /// # Errors
    ///
    /// It isn't known whether the log is synced, or which file stands in the place.
    fn swap_or_sync(&mut self) -> Result<(), SyncFault>
        ensures rolled { (list : List (List ℕ))
            → IsRolled P.same (L.may_be self.old.log) self.old.is_exchanged self.old.kept.is_keeping self.old.kept.seal
            (map (λ v. v.items) self.old.kept.texts.items) self.old.count list
            → IsRolled P.same (L.may_be self.new.log) self.new.is_exchanged self.new.kept.is_keeping self.new.kept.seal
            (map (λ v. v.items) self.new.kept.texts.items) self.new.count list }
        ensures synced { OnOk result (L.is_synced self.new.log) }
        ensures count { self.new.count ≡ self.old.count }
    {
        if let Some(shorter) = self.beside.take_ready() {
            if self.swap_in(shorter)? {
                return Ok(());
            }
        }
        self.log.sync()?;
        Ok(())
    }
}

impl<L: HasLogEnd, P: Equivalence, B: CompactionSource<L, P>> Log for SwapLog<L, P, B> {
    ghost may_be = { λ r list. IsRolled P.same (L.may_be r.log) r.is_exchanged r.kept.is_keeping r.kept.seal
        (map (λ v. v.items) r.kept.texts.items) r.count list };

    ghost is_synced = { λ r. L.is_synced r.log };

    fn append(&mut self, expected: u64, texts: &[Vec<u8>]) -> Result<u64, AppendFault> {
        if self.is_broken {
            return Err(AppendFault::Unknown);
        }
        if expected != self.count {
            return Err(AppendFault::Conflict);
        }
        if self.count > MOST_COUNT {
            return Err(AppendFault::Full);
        }
        append_to(&mut self.log, texts)?;
        self.kept.add(self.alloc, texts);
        self.count += texts.len() as u64;
        Ok(self.count)
    }

    fn sync(&mut self) -> Result<u64, SyncFault> {
        if self.is_broken {
            return Err(SyncFault);
        }
        let count = self.count;
        self.swap_or_sync()?;
        let seal = self.log.log_end();
        if self.beside.on_synced(seal) {
            self.kept.begin(seal);
        }
        Ok(count)
    }

    fn read_from(&mut self, position: u64) -> Result<Vec<Vec<u8>>, ReadFault> {
        if self.is_broken || self.is_exchanged {
            return Err(ReadFault::NoAnswer);
        }
        self.kept.forget();
        let texts = self.log.read_from(position)?;
        if self.log.log_end().count != self.count {
            return Err(ReadFault::Damaged);
        }
        Ok(texts)
    }
}
