//! Each client's share: its payloads that wait, and what it has reserved.
ghost use Rattle.std.specs.Prelude.{◌≡◌, ◌+◌, ◌*◌, ◌<◌, ◌≤◌, true, IfOk, MatchBool, length, map, sum_by, slice_set};
ghost use Rattle.journal_commit.specs.Shares.{IsShared, texts_kept, bytes_kept};
ghost use Rattle.journal_commit.specs.Tables.{usage_of, bytes_in, texts_held, holding, share_of, untaken};
ghost use Rattle.journal_commit.specs.declared.decisions.TheConstants.{MOST_TEXTS, MOST_BYTES, LEAST_BYTES};

use crate::decisions::{LEAST_BYTES, MOST_CLIENTS, Usage, may_reserve};
use std::alloc::{AllocError, Global};

/// The usage of a client that has nothing.
const NO_USAGE: Usage = Usage { texts: 0, bytes: 0 };

/// What one client has.
#[derive(Clone, Copy, Debug, PartialEq, Eq)]
pub(crate) struct ClientShare {
    /// What it has reserved.
    held: Usage,
    /// What waits.
    waiting: Usage,
}

/// What each client has, by its number.
#[derive(Drop)]
pub(crate) struct ClientShares {
    each: Vec<ClientShare>,
    ghost shared: { IsShared (map usage_of each.items) },
}

impl ClientShare {
    /// What it has in all.
    fn usage(&self) -> Usage
        requires texts { (usage_of self.now).texts ≤ MOST_TEXTS }
        requires bytes { (usage_of self.now).bytes ≤ MOST_BYTES }
        ensures { result ≡ usage_of self.now }
    {
        Usage {
            texts: self.held.texts + self.waiting.texts,
            bytes: self.held.bytes + self.waiting.bytes,
        }
    }
}

/// What the clients that have something take up, each at least its minimum, and how many have nothing.
fn count_usage(shares: &[ClientShare]) -> (Usage, usize)
    requires { IsShared (map usage_of shares.now) }
    ensures texts { result.0.texts + result.1 ≡ sum_by texts_kept (map usage_of shares.now) }
    ensures bytes { result.0.bytes + result.1 * LEAST_BYTES ≡ sum_by bytes_kept (map usage_of shares.now) }
{
    let mut all = NO_USAGE;
    let mut without = 0;
    for share in shares {
        let usage = share.usage();
        if usage == NO_USAGE {
            without += 1;
        } else {
            all.texts += usage.texts.max(1);
            all.bytes += usage.bytes.max(LEAST_BYTES);
        }
    }
    (all, without)
}

/// How many payloads of these have a reservation.
fn count_reserved(shares: &[ClientShare]) -> usize
    requires { IsShared (map usage_of shares.now) }
    ensures { result ≡ texts_held shares.now }
{
    let mut held = 0;
    for share in shares {
        held += share.held.texts;
    }
    held
}

impl ClientShares {
    /// No client has anything. Each of so many has a share, and at most [`MOST_CLIENTS`] of them.
    ///
    /// # Errors
    ///
    /// Out of memory.
    pub(crate) fn new(alloc: Global, clients: usize) -> Result<ClientShares, AllocError>
        ensures { IfOk result (λ shares. bytes_in shares.each.items ≡ 0) }
    {
        let nothing = ClientShare {
            held: NO_USAGE,
            waiting: NO_USAGE,
        };
        Ok(ClientShares {
            each: vec![in alloc; nothing; clients.min(MOST_CLIENTS)]?,
        })
    }

    /// Whether so much more may be reserved for this client; not for one without a share.
    pub(crate) fn has_share(&self, client: usize, more: Usage) -> bool
        ensures known { result ≡ true → client < length self.now.each.items }
        ensures shared { result ≡ true → IsShared (map usage_of (holding self.now.each.items client more)) }
    {
        if client >= self.each.len() {
            return false;
        }
        let own = self.each[client].usage();
        let (before, before_without) = count_usage(&self.each[..client]);
        let (after, after_without) = count_usage(&self.each[client + 1..]);
        let all = Usage {
            texts: before.texts + own.texts + after.texts,
            bytes: before.bytes + own.bytes + after.bytes,
        };
        may_reserve(own, all, before_without + after_without, more)
    }

    /// Reserves so much more for a client.
    pub(crate) fn add_reserved(&mut self, client: usize, more: Usage)
        requires known { client < length self.old.each.items }
        requires shared { IsShared (map usage_of (holding self.old.each.items client more)) }
        ensures { self.new.each.items ≡ holding self.old.each.items client more }
    {
        let share = &mut self.each[client];
        share.held.texts += more.texts;
        share.held.bytes += more.bytes;
    }

    /// Whether this client has a reservation for one payload of so many bytes.
    fn has_reservation(&self, client: usize, bytes: u64) -> bool
        ensures { result ≡ true → (client < length self.now.each.items) × (0 < (share_of self.now.each.items client).held.texts) × (bytes ≤ (share_of self.now.each.items client).held.bytes) }
    {
        match self.each.get(client) {
            Some(share) => share.held.texts > 0 && share.held.bytes >= bytes,
            None => false,
        }
    }

    /// Releases the reservation for one payload of so many bytes, and returns whether it did. It doesn't where there
    /// was none.
    pub(crate) fn release(&mut self, client: usize, bytes: u64) -> bool
        ensures { MatchBool result (bytes_in self.new.each.items + bytes ≡ bytes_in self.old.each.items) (self.new ≡ self.old) }
    {
        if !self.has_reservation(client, bytes) {
            return false;
        }
        let share = &mut self.each[client];
        share.held.texts -= 1;
        share.held.bytes -= bytes;
        true
    }

    /// Turns the reservation for one payload of so many bytes into one that waits, and returns whether it did. It
    /// doesn't where there was none.
    pub(crate) fn append(&mut self, client: usize, bytes: u64) -> bool
        ensures { bytes_in self.new.each.items ≡ bytes_in self.old.each.items }
    {
        if !self.has_reservation(client, bytes) {
            return false;
        }
        let share = &mut self.each[client];
        share.held.texts -= 1;
        share.held.bytes -= bytes;
        share.waiting.texts += 1;
        share.waiting.bytes += bytes;
        true
    }

    /// How many reservations there are.
    pub(crate) fn reserved_count(&self) -> usize
        ensures { result ≡ texts_held self.now.each.items }
    {
        count_reserved(&self.each)
    }

    /// Clears what waits of this client, and returns how many bytes that was.
    fn take_waiting_of(&mut self, client: usize) -> u64
        requires { client < length self.old.each.items }
        ensures bytes { result + bytes_in self.new.each.items ≡ bytes_in self.old.each.items }
        ensures taken { self.new.each.items ≡ slice_set self.old.each.items client (untaken (share_of self.old.each.items client)) }
    {
        let share = &mut self.each[client];
        let bytes = share.waiting.bytes;
        share.waiting = NO_USAGE;
        bytes
    }

    /// Clears what waits of every client, and returns how many bytes that was. Reservations stay.
    pub(crate) fn take_waiting(&mut self) -> u64
        ensures bytes { result + bytes_in self.new.each.items ≡ bytes_in self.old.each.items }
        ensures taken { self.new.each.items ≡ map untaken self.old.each.items }
    {
        let mut bytes = 0;
        for client in 0..self.each.len() {
            bytes += self.take_waiting_of(client);
        }
        bytes
    }
}
