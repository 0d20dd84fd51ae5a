//! The table of a server's connections: whose they are, and what waits of each client.
ghost use Rattle.std.specs.Prelude.{◌≡◌, ◌≢◌, ℕ, ⊤, drop, slice_set, None, Some, option_map, true, false, IsTrue, IfSome, IsSomeAnd, OnSome};
ghost use Rattle.std.specs.Bool.{OnTrue, OnFalse};
ghost use Rattle.std.specs.Option.{option_map_or};
ghost use Rattle.slab.specs.Slab.{Updates, get};
ghost use Rattle.server_http.specs.Slots.{ClosesOldest, GivesSlot, IsNew, MatchAdmittance, SameLoads, StartsWait, TakesSlot, answered, asker, busy, bytes_without, client_at, closing, counted, counts_of, counts_without, fits, idle_lists, idle_of, idle_since, idle_with, idle_without, is_free, loads_without, oldest_of, one_more, since_at, uncounted, waiting, waits_at};
ghost use Rattle.server_http.specs.declared.slots.Admittance.TheVariants.{Admitted, Busy};
ghost use Rattle.server_http.specs.declared.slots.ConnEntry.{ConnEntry};

use mds_request::Actor;
use server_admission::{Decision, Load, index_of, may_wait, slot_for};
use slab::Slab;
use std::alloc::{AllocError, Global};
use std::collections::BTreeMap;
use std::sync::Arc;
use std::sync::atomic::{AtomicU64, Ordering};
use tokio::sync::{Notify, OwnedNotified};

/// The connection's slot: what all parts of a connection share.
#[derive(Drop)]
pub struct ConnSlot {
    /// How far it is: even while it waits for a head, odd while a request is answered.
    pub progress: AtomicU64,
    /// Notifies the connection that it has to close.
    leave: Arc<Notify>,
    /// Notifies it that the server shuts down.
    last: Arc<Notify>,
}

/// Whether a request may wait for its answer.
#[derive(Clone, Copy, Debug, PartialEq, Eq)]
pub enum Admittance {
    /// It may, in this client's queue.
    Admitted(Actor),
    /// Too much waits already, no slot is left for a connection of the client, the connection was
    /// told to close, or the table is closed.
    Busy,
}

/// A connection that has a slot.
#[derive(Drop)]
struct ConnEntry {
    /// The index of the client that uses it.
    client: usize,
    /// It was told to close, and isn't counted any more.
    is_closing: bool,
    /// Since when it is idle, where it is.
    since: Option<u64>,
    /// The bytes that the body of its unanswered request counts as.
    waits: Option<usize>,
    slot: Arc<ConnSlot>,
}

/// The table of connections, and what waits.
#[derive(Drop)]
pub struct ConnTable {
    conns: Slab<ConnEntry>,
    /// How often a connection began to be idle: later ones have a higher number.
    idle_starts: u64,
    /// The keys of each client's idle connections, by since when they are idle.
    idle: Vec<BTreeMap<u64, usize>>,
    /// How many connections each client has: anonymous, the author, and then the operators.
    counts: Vec<usize>,
    /// What waits of each of these.
    loads: Vec<Load>,
    /// How many connections there are.
    all: usize,
    /// The bytes that wait of all clients.
    bytes: usize,
    /// The number of open connections, shared with its reader.
    open: Option<Arc<AtomicU64>>,
    /// The server shuts down: no connection and no request gets in any more.
    is_closed: bool,
}

impl ConnSlot {
    /// The slot of a connection that waits for its first head.
    ///
    /// # Errors
    ///
    /// Out of memory.
    pub fn new(alloc: Global) -> Result<ConnSlot, AllocError> {
        Ok(ConnSlot {
            progress: AtomicU64::new(0),
            leave: Arc::new(alloc, Notify::new(alloc)?)?,
            last: Arc::new(alloc, Notify::new(alloc)?)?,
        })
    }

    /// A future that ends when the connection is told to close.
    ///
    /// # Errors
    ///
    /// There are too many references.
    pub fn close_notice(&self) -> Result<OwnedNotified, AllocError> {
        Ok(Notify::notified_owned(Arc::try_clone(&self.leave)?))
    }

    /// A future that ends when the server shuts down.
    ///
    /// # Errors
    ///
    /// There are too many references.
    pub fn shutdown_notice(&self) -> Result<OwnedNotified, AllocError> {
        Ok(Notify::notified_owned(Arc::try_clone(&self.last)?))
    }
}

impl ConnTable {
    /// A table of no connection, for so many clients.
    ///
    /// # Errors
    ///
    /// Out of memory.
    pub fn new(alloc: Global, clients: usize) -> Result<ConnTable, AllocError> {
        let none = Load {
            requests: 0,
            bytes: 0,
        };
        let mut idle = Vec::with_capacity(alloc, clients)?;
        for _ in 0..clients {
            idle.push(BTreeMap::new(alloc))?;
        }
        Ok(ConnTable {
            conns: Slab::new(alloc),
            idle_starts: 0,
            idle,
            counts: vec![in alloc; 0; clients]?,
            loads: vec![in alloc; none; clients]?,
            all: 0,
            bytes: 0,
            open: None,
            is_closed: false,
        })
    }

    /// No connection and no request gets in from now on.
    pub fn close(&mut self)
        ensures { self.new ≡ record self.old { is_closed = true } }
    {
        self.is_closed = true;
    }

    /// From now on this number is that of open connections: those that have a slot, and those that
    /// were told to close and haven't ended.
    pub fn count_at(&mut self, open: Arc<AtomicU64>)
        ensures { self.new ≡ record self.old { «open» = Some «open» } }
    {
        self.open = Some(open);
        self.store_open();
    }

    /// Stores the number of open connections, where it is wanted.
    fn store_open(&self) {
        if let Some(open) = &self.open {
            open.store(self.conns.len() as u64, Ordering::SeqCst);
        }
    }

    /// Notifies each connection that the server shuts down. One that waits for a head closes at
    /// once, another once its response is written.
    pub fn notify_shutdown(&self) {
        for (_, entry) in self.conns.iter() {
            entry.slot.leave.notify_one();
            entry.slot.last.notify_one();
        }
    }

    /// Gives an anonymous connection a slot, and returns its key; none, where there is no slot for
    /// it or the table is closed.
    pub fn add_conn(&mut self, slot: Arc<ConnSlot>) -> Option<usize>
        ensures closed { self.old.is_closed ≡ true → result ≡ None }
        ensures kept { self.new.is_closed ≡ self.old.is_closed }
        ensures new { IfSome result (λ key. IsSomeAnd (get self.new.conns key) IsNew) }
        ensures counts { OnSome result (GivesSlot 0 (counts_of self.old) (counts_of self.new)) }
        ensures loads { SameLoads self.old self.new }
    {
        if self.is_closed {
            return None;
        }
        let client = index_of(Actor::Nobody);
        if !self.take_slot(client) {
            return None;
        }
        let entry = ConnEntry {
            client,
            is_closing: false,
            since: None,
            waits: None,
            slot,
        };
        match self.conns.insert(entry) {
            Ok(key) => {
                self.set_idle(key);
                self.store_open();
                Some(key)
            }
            Err(_) => {
                self.uncount(client);
                None
            }
        }
    }

    /// The connection is idle from now on: its last response is written whole, and no further head
    /// has come. Where there is no memory to note it, it isn't told to close.
    pub fn set_idle(&mut self, key: usize)
        ensures conns { Updates self.old.conns self.new.conns key
            (option_map (idle_since (since_at self.new key)) (get self.old.conns key)) }
        ensures last { IfSome (since_at self.new key) (λ since. since ≡ one_more self.old.idle_starts) }
        ensures idle { idle_lists self.new ≡ idle_with key (since_at self.new key) self.old }
        ensures closing { (conn : ConnEntry) → get self.old.conns key ≡ Some conn → IsTrue conn.is_closing
            → since_at self.new key ≡ None }
        ensures rest { self.new ≡ record self.old {
          conns = self.new.conns;
          idle = self.new.idle;
          idle_starts = self.new.idle_starts;
        } }
    {
        self.set_busy(key);
        let Some(entry) = self.conns.get_mut(key) else {
            return;
        };
        if entry.is_closing {
            return;
        }
        self.idle_starts = self.idle_starts.saturating_add(1);
        let Some(idle) = self.idle.get_mut(entry.client) else {
            return;
        };
        if idle.insert(self.idle_starts, key).is_ok() {
            entry.since = Some(self.idle_starts);
        }
    }

    /// Whether a request of this client, whose body counts as so many bytes, may wait. Where it
    /// may, it waits from now on. An anonymous one counts for the client that has the connection.
    pub fn admit(&mut self, key: usize, actor: Actor, bytes: usize) -> Admittance
        ensures closed { self.old.is_closed ≡ true → result ≡ Busy }
        ensures kept { self.new.is_closed ≡ self.old.is_closed }
        ensures admitted { MatchAdmittance result (λ given. (given ≡ actor) × IsSomeAnd (get self.old.conns key)
            (λ conn. IsTrue (is_free conn) × StartsWait (asker actor conn) bytes self.old self.new)) ⊤ }
        ensures noted { MatchAdmittance result (λ _. waits_at self.new key ≡ Some bytes) ⊤ }
        ensures busy { result ≡ Busy → SameLoads self.old self.new }
        ensures may { (conn : ConnEntry) → self.old.is_closed ≡ false → get self.old.conns key ≡ Some conn
            → IsTrue (is_free conn) → conn.client ≡ asker actor conn → IsTrue (fits conn.client bytes self.old)
            → result ≡ Admitted actor }
    {
        if self.is_closed || !self.is_free(key) {
            return Admittance::Busy;
        }
        self.set_busy(key);
        if self.assign_actor(key, actor) && self.start_wait(key, bytes) {
            Admittance::Admitted(actor)
        } else {
            Admittance::Busy
        }
    }

    /// Whether there is such a connection, it wasn't told to close, and no request of it waits.
    fn is_free(&self, key: usize) -> bool
        ensures { result ≡ option_map_or is_free (get self.now.conns key) false }
    {
        match self.conns.get(key) {
            Some(entry) => !entry.is_closing && entry.waits.is_none(),
            None => false,
        }
    }

    /// The connection's request is answered: it waits no more. What it counts as is given back once:
    /// where none of the connection waits, nothing changes.
    pub fn finish_request(&mut self, key: usize)
        ensures loads { self.new.loads.items ≡ loads_without key self.old }
        ensures bytes { self.new.bytes ≡ bytes_without key self.old }
        ensures conns { Updates self.old.conns self.new.conns key (option_map answered (get self.old.conns key)) }
        ensures once { waits_at self.old key ≡ None → self.new ≡ self.old }
        ensures rest { self.new ≡ record self.old {
          loads = self.new.loads;
          bytes = self.new.bytes;
          conns = self.new.conns;
        } }
    {
        let Some(bytes) = self.waits_at(key) else {
            return;
        };
        let Some(entry) = self.conns.get_mut(key) else {
            return;
        };
        entry.waits = None;
        let client = entry.client;
        self.bytes = self.bytes.saturating_sub(bytes);
        if let Some(load) = self.loads.get_mut(client) {
            load.requests = load.requests.saturating_sub(1);
            load.bytes = load.bytes.saturating_sub(bytes);
        }
    }

    /// The bytes that this connection's unanswered request counts as, if there is one.
    fn waits_at(&self, key: usize) -> Option<usize>
        ensures { result ≡ waits_at self.now key }
    {
        self.conns.get(key)?.waits
    }

    /// The connection has ended: its request, where one waits, and its slot are given back once.
    pub fn remove_conn(&mut self, key: usize)
        ensures conns { Updates self.old.conns self.new.conns key None }
        ensures loads { self.new.loads.items ≡ loads_without key self.old }
        ensures bytes { self.new.bytes ≡ bytes_without key self.old }
        ensures counts { counts_of self.new ≡ counts_without key self.old }
        ensures idle { idle_lists self.new ≡ idle_without key self.old }
        ensures once { get self.old.conns key ≡ None → self.new ≡ self.old }
        ensures kept { self.new.is_closed ≡ self.old.is_closed }
    {
        self.set_busy(key);
        self.finish_request(key);
        self.drop_conn(key);
        self.store_open();
    }

    /// Drops a connection, and gives its slot back: one that was told to close isn't counted.
    fn drop_conn(&mut self, key: usize)
        ensures conns { Updates self.old.conns self.new.conns key None }
        ensures counts { counts_of self.new ≡ counts_without key self.old }
        ensures once { get self.old.conns key ≡ None → self.new ≡ self.old }
        ensures rest { self.new ≡ record self.old {
          conns = self.new.conns;
          counts = self.new.counts;
          all = self.new.all;
        } }
    {
        let Some(entry) = self.conns.try_remove(key) else {
            return;
        };
        if !entry.is_closing {
            self.uncount(entry.client);
        }
    }

    /// The connection isn't idle any more.
    fn set_busy(&mut self, key: usize)
        ensures conns { Updates self.old.conns self.new.conns key (option_map busy (get self.old.conns key)) }
        ensures idle { idle_lists self.new ≡ idle_without key self.old }
        ensures once { since_at self.old key ≡ None → self.new ≡ self.old }
        ensures rest { self.new ≡ record self.old { conns = self.new.conns; idle = self.new.idle } }
    {
        let Some(since) = self.since_at(key) else {
            return;
        };
        let Some(entry) = self.conns.get_mut(key) else {
            return;
        };
        entry.since = None;
        if let Some(idle) = self.idle.get_mut(entry.client) {
            idle.remove(&since);
        }
    }

    /// Since when this connection is idle, if it is.
    fn since_at(&self, key: usize) -> Option<u64>
        ensures { result ≡ since_at self.now key }
    {
        self.conns.get(key)?.since
    }

    /// Counts one more connection of this client.
    fn count(&mut self, client: usize)
        ensures counts { counts_of self.new ≡ counted client (counts_of self.old) }
        ensures rest { self.new ≡ record self.old { counts = self.new.counts; all = self.new.all } }
    {
        self.all = self.all.saturating_add(1);
        if let Some(count) = self.counts.get_mut(client) {
            *count = count.saturating_add(1);
        }
    }

    /// Counts one less connection of this client.
    fn uncount(&mut self, client: usize)
        ensures counts { counts_of self.new ≡ uncounted client (counts_of self.old) }
        ensures rest { self.new ≡ record self.old { counts = self.new.counts; all = self.new.all } }
    {
        self.all = self.all.saturating_sub(1);
        if let Some(count) = self.counts.get_mut(client) {
            *count = count.saturating_sub(1);
        }
    }

    /// Counts one more connection of this client. Another one may be told to close for it; false,
    /// where none can be, and then the connection isn't counted.
    fn take_slot(&mut self, client: usize) -> bool
        ensures slot { TakesSlot client result self.old self.new }
        ensures keys { (key : ℕ) → get self.old.conns key ≢ None → get self.new.conns key ≢ None }
        ensures rest { self.new ≡ record self.old {
          conns = self.new.conns;
          idle = self.new.idle;
          counts = self.new.counts;
          all = self.new.all;
        } }
    {
        self.count(client);
        match slot_for(&self.counts, self.all, client) {
            Decision::Take => true,
            Decision::Close(of) => {
                let is_closing = self.close_oldest(of);
                if !is_closing {
                    self.uncount(client);
                }
                is_closing
            }
        }
    }

    /// Tells the oldest idle connection of this client to close, which isn't counted any more;
    /// false, where none is idle.
    fn close_oldest(&mut self, client: usize) -> bool
        ensures closes { ClosesOldest client result self.old self.new }
        ensures counts { OnTrue result (counts_of self.new ≡ uncounted client (counts_of self.old)) }
        ensures none { OnFalse result (counts_of self.new ≡ counts_of self.old) }
        ensures keys { (key : ℕ) → get self.old.conns key ≢ None → get self.new.conns key ≢ None }
        ensures rest { self.new ≡ record self.old {
          conns = self.new.conns;
          idle = self.new.idle;
          counts = self.new.counts;
          all = self.new.all;
        } }
    {
        let Some(key) = self.take_oldest(client) else {
            return false;
        };
        self.tell_to_close(key);
        self.uncount(client);
        true
    }

    /// Takes the oldest idle connection of this client off the idle ones, and returns its key; none,
    /// where none is idle.
    fn take_oldest(&mut self, client: usize) -> Option<usize>
        ensures oldest { result ≡ oldest_of self.old client }
        ensures idle { idle_lists self.new ≡ slice_set (idle_lists self.old) client (drop 1 (idle_of self.old client)) }
        ensures rest { self.new ≡ record self.old { idle = self.new.idle } }
    {
        let Some(idle) = self.idle.get_mut(client) else {
            return None;
        };
        let Some((_, key)) = idle.pop_first() else {
            return None;
        };
        Some(key)
    }

    /// Tells a connection to close.
    fn tell_to_close(&mut self, key: usize)
        ensures conns { Updates self.old.conns self.new.conns key (option_map closing (get self.old.conns key)) }
        ensures keys { (key : ℕ) → get self.old.conns key ≢ None → get self.new.conns key ≢ None }
        ensures rest { self.new ≡ record self.old { conns = self.new.conns } }
    {
        let Some(entry) = self.conns.get_mut(key) else {
            return;
        };
        entry.since = None;
        entry.is_closing = true;
        entry.slot.leave.notify_one();
    }

    /// The connection becomes one of the client that asks, unless that is anonymous; false, where
    /// there is no slot for it.
    fn assign_actor(&mut self, key: usize, actor: Actor) -> bool
        ensures client { (conn : ConnEntry) → get self.old.conns key ≡ Some conn
            → OnTrue result (IsSomeAnd (get self.new.conns key) (λ mine. mine.client ≡ asker actor conn)) }
        ensures same { (conn : ConnEntry) → get self.old.conns key ≡ Some conn → conn.client ≡ asker actor conn
            → (result ≡ true) × (self.new ≡ self.old) }
        ensures rest { self.new ≡ record self.old {
          conns = self.new.conns;
          idle = self.new.idle;
          counts = self.new.counts;
          all = self.new.all;
        } }
    {
        actor == Actor::Nobody || self.assign_to(key, index_of(actor))
    }

    /// The connection becomes one of this client's; false, where there is no slot for it, and then
    /// it stays its former client's.
    fn assign_to(&mut self, key: usize, client: usize) -> bool
        ensures client { OnTrue result (IsSomeAnd (get self.new.conns key) (λ mine. mine.client ≡ client)) }
        ensures same { (conn : ConnEntry) → get self.old.conns key ≡ Some conn → conn.client ≡ client
            → (result ≡ true) × (self.new ≡ self.old) }
        ensures given { (conn : ConnEntry) → get self.old.conns key ≡ Some conn → conn.client ≢ client
            → OnTrue result (GivesSlot client (uncounted conn.client (counts_of self.old)) (counts_of self.new)) }
        ensures refused { (conn : ConnEntry) → get self.old.conns key ≡ Some conn
            → OnFalse result (counts_of self.new ≡ counted conn.client (uncounted client (counted client
            (uncounted conn.client (counts_of self.old))))) }
        ensures rest { self.new ≡ record self.old {
          conns = self.new.conns;
          idle = self.new.idle;
          counts = self.new.counts;
          all = self.new.all;
        } }
    {
        let Some(former) = self.client_at(key) else {
            return false;
        };
        if former == client {
            return true;
        }
        self.uncount(former);
        if !self.take_slot(client) {
            self.count(former);
            return false;
        }
        let Some(entry) = self.conns.get_mut(key) else {
            return false;
        };
        entry.client = client;
        true
    }

    /// Lets the connection's request wait; false, where too much waits already, and then nothing
    /// changes.
    fn start_wait(&mut self, key: usize, bytes: usize) -> bool
        ensures fits { result ≡ option_map_or (λ client. fits client bytes self.old) (client_at self.old key) false }
        ensures waits { IfSome (client_at self.old key) (λ client. OnTrue result
            (StartsWait client bytes self.old self.new)) }
        ensures conns { OnTrue result (Updates self.old.conns self.new.conns key
            (option_map (waiting bytes) (get self.old.conns key))) }
        ensures refused { OnFalse result (self.new ≡ self.old) }
        ensures rest { self.new ≡ record self.old {
          loads = self.new.loads;
          bytes = self.new.bytes;
          conns = self.new.conns;
        } }
    {
        let Some(client) = self.client_at(key) else {
            return false;
        };
        if !self.fits(client, bytes) {
            return false;
        }
        let Some(entry) = self.conns.get_mut(key) else {
            return false;
        };
        let Some(load) = self.loads.get_mut(client) else {
            return false;
        };
        load.requests = load.requests.saturating_add(1);
        load.bytes = load.bytes.saturating_add(bytes);
        self.bytes = self.bytes.saturating_add(bytes);
        entry.waits = Some(bytes);
        true
    }

    /// Whether one more request of this client, whose body counts as so many bytes, is within the
    /// limits.
    fn fits(&self, client: usize, bytes: usize) -> bool
        ensures { result ≡ fits client bytes self.now }
    {
        match self.loads.get(client) {
            Some(load) => may_wait(*load, self.bytes, bytes),
            None => false,
        }
    }

    /// The client of this connection; none, where there is none at the key.
    fn client_at(&self, key: usize) -> Option<usize>
        ensures { result ≡ client_at self.now key }
    {
        Some(self.conns.get(key)?.client)
    }
}
