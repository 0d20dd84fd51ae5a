//! A compacted log that may take another's place.
ghost use Rattle.std.specs.Prelude.{◌≡◌, ◌++◌, ℕ, List, map, length, IfOk};
ghost use Rattle.journal_file.specs.LogEnds.{IsSealed};
ghost use Rattle.journal_swap.specs.Compacted.{IsShorter, numbers_of};

use crate::equivalence::Equivalence;
use journal_file::{AppendFault, HasLogEnd, LogEnd, ReadFault, SyncFault, texts_between};
use std::alloc::Global;
use std::marker::{Model, PhantomData};

/// Why a compacted log isn't brought up to another log end.
#[derive(Clone, Copy, Debug, PartialEq, Eq)]
pub enum CatchUpFault {
    /// The bytes aren't those up to the log end.
    Damaged,
    /// The log couldn't be written or synced.
    NotWritten,
    /// Copies of what it lacks aren't kept any more.
    NotKept,
    /// Out of memory.
    NoMemory,
}

/// A compacted log with the same effect as another had at this log end. Contracts see the log end's numbers.
#[derive(Drop)]
pub struct CompactedLog<L: HasLogEnd, P: Equivalence> {
    log: L,
    seal: LogEnd,
    of: PhantomData<P>,
}

impl<L: HasLogEnd, P: Equivalence> Model for CompactedLog<L, P> {
    ghost use Rattle.std.specs.Prelude.{ℕ, List};
    ghost use Rattle.journal_swap.specs.Compacted.{IsShorter, coded_numbers, numbers_of};

    ghost Value = { List ℕ };

    ghost coded = { coded_numbers };

    ghost view = { λ s. numbers_of s.seal };

    ghost invariant = { λ s. IsShorter P.same (L.may_be s.log) s.seal };
}

impl From<ReadFault> for CatchUpFault {
    fn from(fault: ReadFault) -> CatchUpFault {
        match fault {
            ReadFault::NoMemory => CatchUpFault::NoMemory,
            _ => CatchUpFault::Damaged,
        }
    }
}

impl From<AppendFault> for CatchUpFault {
    fn from(fault: AppendFault) -> CatchUpFault {
        match fault {
            AppendFault::NoMemory => CatchUpFault::NoMemory,
            _ => CatchUpFault::NotWritten,
        }
    }
}

impl From<SyncFault> for CatchUpFault {
    fn from(_: SyncFault) -> CatchUpFault {
        CatchUpFault::NotWritten
    }
}

impl<L: HasLogEnd, P: Equivalence> CompactedLog<L, P> {
    /// A log that was found equivalent to a list with this log end.
    pub fn new(log: L, seal: LogEnd) -> CompactedLog<L, P>
        requires { (front : List (List ℕ)) × (before : List (List ℕ)) × L.may_be log front × P.same front before × IsSealed seal before }
        ensures { result ≡ numbers_of seal }
    {
        CompactedLog {
            log,
            seal,
            of: PhantomData,
        }
    }

    /// The log end up to which it is brought.
    pub fn log_end(&self) -> LogEnd
        ensures { numbers_of result ≡ self.now }
    {
        self.seal
    }

    /// The log, and the log end of the list to which it is equivalent.
    pub(crate) fn into_parts(self) -> (L, LogEnd)
        ensures { IsShorter P.same (L.may_be result.0) result.1 }
    {
        let CompactedLog {
            log,
            seal,
            of: PhantomData,
        } = self;
        (log, seal)
    }

    /// Brings it up to a later log end of the other log, by the bytes of that one's file between the two, and syncs it.
    ///
    /// # Errors
    ///
    /// See [`CatchUpFault`]. The compacted log can't be used then.
    pub fn catch_up(
        self,
        alloc: Global,
        to: LogEnd,
        bytes: &[u8],
    ) -> Result<CompactedLog<L, P>, CatchUpFault>
        ensures { IfOk result (λ shorter. shorter ≡ numbers_of to) }
    {
        let CompactedLog {
            log,
            seal,
            of: PhantomData,
        } = self;
        let mut log = log;
        let texts = texts_between(alloc, seal, to, bytes)?;
        let count = log.log_end().count;
        log.append(count, &texts)?;
        log.sync()?;
        Ok(CompactedLog {
            log,
            seal: to,
            of: PhantomData,
        })
    }
}
