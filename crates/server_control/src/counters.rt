//! The counters of a server, which any thread may change.
ghost use Rattle.std.specs.Prelude.{◌≡◌};
ghost use Rattle.server_control.specs.Counted.{outcome_of, place_of, request_place};

use crate::exposition::{Metadata, MetricLine};
use crate::families::{BOUNDS, CONNECTIONS, COUNT, FIRST_BUCKET, PLACES, ROWS, SUM, VEHICLES};
use crate::fleets::Fleet;
use std::alloc::{AllocError, Global};
use std::sync::Arc;
use std::sync::atomic::{AtomicU64, Ordering};

/// The kinds of requests.
#[derive(Clone, Copy, PartialEq, Eq)]
pub enum CallKind {
    /// It reads, or the table of calls refuses it.
    Read,
    /// It may change the persisted state.
    Change,
    /// It publishes.
    Publish,
}

/// The kinds of answers.
#[derive(Clone, Copy, PartialEq, Eq)]
pub enum StatusClass {
    /// The request was carried out.
    Done,
    /// The request was refused.
    Refused,
    /// The server couldn't.
    Failed,
}

/// The other numbers.
#[derive(Clone, Copy, PartialEq, Eq)]
pub enum Figure {
    /// The bytes of the journal.
    JournalBytes,
    /// How often the journal was synced.
    Syncs,
    /// The pending responses: asked for, and neither answered nor given up yet.
    Pending,
    /// The publications: those in the journal at the start, and those answered since.
    Revision,
}

/// The counters of a server.
#[derive(Drop)]
pub struct Counters {
    /// In the order of the rows.
    values: Vec<AtomicU64>,
    /// How many connections are open.
    connections: Arc<AtomicU64>,
    /// In the configuration's order.
    fleets: Vec<Fleet>,
}

impl StatusClass {
    /// The kind of an answer of this status.
    pub fn of(status: u16) -> StatusClass
        ensures { result ≡ outcome_of status }
    {
        match status {
            0..400 => StatusClass::Done,
            400..500 => StatusClass::Refused,
            _ => StatusClass::Failed,
        }
    }
}

/// The row of requests of this kind with such an answer.
fn request_place(kind: CallKind, outcome: StatusClass) -> usize
    ensures { result ≡ request_place kind outcome }
{
    let first = match kind {
        CallKind::Read => 0,
        CallKind::Change => 3,
        CallKind::Publish => 6,
    };
    match outcome {
        StatusClass::Done => first,
        StatusClass::Refused => first + 1,
        StatusClass::Failed => first + 2,
    }
}

impl Figure {
    /// Its row.
    fn place(self) -> usize
        ensures { result ≡ place_of self }
    {
        match self {
            Figure::JournalBytes => 9,
            Figure::Syncs => 10,
            Figure::Pending => 11,
            Figure::Revision => 12,
        }
    }
}

/// So many numbers, each 0.
fn zeros(alloc: Global, count: usize) -> Result<Vec<AtomicU64>, AllocError> {
    let mut values = Vec::with_capacity(alloc, count)?;
    for _ in 0..count {
        values.push(AtomicU64::new(0))?;
    }
    Ok(values)
}

impl Counters {
    /// Counters, all 0. The open connections and the operators' vehicles are counted elsewhere, in
    /// numbers that are read here.
    ///
    /// # Errors
    ///
    /// Out of memory.
    pub fn new(
        alloc: Global,
        connections: Arc<AtomicU64>,
        fleets: Vec<Fleet>,
    ) -> Result<Counters, AllocError> {
        Ok(Counters {
            values: zeros(alloc, PLACES)?,
            connections,
            fleets,
        })
    }

    /// The fleets, in the configuration's order.
    pub fn fleets(&self) -> &[Fleet]
        ensures { result.now ≡ self.now.fleets.items }
    {
        &self.fleets
    }

    fn bump(&self, place: usize, by: u64) {
        if let Some(value) = self.values.get(place) {
            value.fetch_add(by, Ordering::SeqCst);
        }
    }

    /// Counts a request of this kind that was answered with this status, so many milliseconds after
    /// its turn came.
    pub fn count_answer(&self, kind: CallKind, status: u16, millis: u64) {
        self.bump(request_place(kind, StatusClass::of(status)), 1);
        for (bucket, bound) in BOUNDS.iter().enumerate() {
            if millis <= *bound {
                self.bump(FIRST_BUCKET + bucket, 1);
            }
        }
        self.bump(SUM, millis);
        self.bump(COUNT, 1);
    }

    /// Adds to a number.
    pub fn add(&self, figure: Figure, by: u64) {
        self.bump(figure.place(), by);
    }

    /// Subtracts what was added before.
    pub fn subtract(&self, figure: Figure, by: u64) {
        if let Some(held) = self.values.get(figure.place()) {
            held.fetch_sub(by, Ordering::SeqCst);
        }
    }

    /// Sets a number.
    pub fn set(&self, figure: Figure, value: u64) {
        if let Some(held) = self.values.get(figure.place()) {
            held.store(value, Ordering::SeqCst);
        }
    }

    /// All lines with their present values.
    ///
    /// # Errors
    ///
    /// Out of memory.
    pub fn lines(&self, alloc: Global) -> Result<Vec<MetricLine<'_>>, AllocError> {
        let mut lines = Vec::new(alloc);
        lines.push(MetricLine {
            metadata: Metadata::Family(CONNECTIONS),
            name: CONNECTIONS.name,
            end: "",
            value: self.connections.load(Ordering::SeqCst),
        })?;
        for (index, fleet) in self.fleets.iter().enumerate() {
            lines.push(MetricLine {
                metadata: Metadata::of(VEHICLES, index),
                name: VEHICLES.name,
                end: fleet.label(),
                value: fleet.count(),
            })?;
        }
        for rows in ROWS {
            let values = self.values.get(rows.first..).unwrap_or_default();
            for ((index, end), value) in rows.ends.iter().enumerate().zip(values) {
                lines.push(MetricLine {
                    metadata: Metadata::of(rows.family, index),
                    name: rows.family.name,
                    end,
                    value: value.load(Ordering::SeqCst),
                })?;
            }
        }
        Ok(lines)
    }
}
