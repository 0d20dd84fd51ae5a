//! An operator's vehicle store: the last accepted report of each device, with a bitmap index.
ghost use Rattle.std.specs.Prelude.{◌≡◌, ◌≢◌, ℕ, ◌^◌, ◌≤◌, ◌<◌, ◌↔◌, Ok, Some, option_map, IsTrue, IfOk, IfSome, OnOk, OnErr, All, map};
ghost use Rattle.std.specs.Result.{result_ok};
ghost use Rattle.std.specs.FinMap as finite;
ghost use Rattle.std.specs.BTreeMap.{values, IsOrdered};
ghost use Rattle.std.specs.List.Sorted.{IsStrictlySortedBy};
ghost use Rattle.mds_text.specs.Fault.{Gives, text_cause};
ghost use Rattle.mds_policy.specs.Policy.{policy_document};
ghost use Rattle.mds_match.specs.Row.{row_of};
ghost use Rattle.mds_match.specs.declared.vehicle.TheConstants.{MOST_VEHICLES};
ghost use Rattle.mds_verdict.specs.Verdict.{verdict_document, verdicts};
ghost use Rattle.mds_bitmaps.specs.Index.{HasArrived, IsChanged, IsPublished, Published};
ghost use Rattle.mds_fleet.specs.Books.{device_cmp, Take, outcome_at, report_document, reported, row_after, row_from, run_start};
ghost use Rattle.mds_fleet.specs.Fleet.{rows_of, IsKept};
ghost use Rattle.mds_fleet.specs.Reading.{read_report};

use crate::interner::WordInterner;
use crate::report::Report;
use mds_bitmaps::BitmapIndex;
use mds_json::ReusableScratch;
use mds_match::{Local, LocalMoment, Places, Vehicle};
use mds_policy::Policy;
use mds_text::{Id, Moment, TextFault, Token};
use mds_verdict::RuleVerdict;
use std::alloc::{AllocError, AllocFailed, Global};
use std::collections::BTreeMap;
use std::marker::Model;

/// What an accepted report did to a book.
#[derive(Clone, Copy, Debug, PartialEq, Eq)]
pub enum Taken {
    /// The device had no row; now it has one.
    New,
    /// The device had a row, and now has the row of this report.
    Changed,
    /// The report is equal to the last accepted one, and nothing changed.
    Same,
}

/// Why a book refuses a report.
#[derive(Clone, Copy, Debug, PartialEq, Eq)]
pub enum BookFault {
    /// Its timestamp is after the moment of the request.
    Future,
    /// The device's row has a later timestamp.
    Stale,
    /// The device has no row, and the book is at its limit.
    FleetFull,
    /// Out of memory.
    NoMemory,
}

/// The device has no row in the book.
#[derive(Clone, Copy, Debug, PartialEq, Eq)]
pub struct Absent;

/// The vehicle store of one operator: rows by device id, and the most that it may hold. Between questions it keeps a
/// bitmap index of the policies that were asked about, so that a question costs no more than a pass over words.
/// Contracts see the map from device ids to rows, the limit, and the index.
#[derive(Drop)]
pub struct Book {
    // each vehicle under its own device id; boxed, because a node of the map has room for more entries than it holds
    vehicles: BTreeMap<Id, Box<Vehicle>>,
    limit: u32,
    alloc: Global,
    kept: BitmapIndex,
    shares: WordInterner,
    reading: ReusableScratch,
}

impl Model for Book {
    ghost use Rattle.mds_bitmaps.specs.contracts.bitmap_index.BitmapIndex.{the_row as kept_row};
    ghost use Rattle.mds_fleet.specs.Fleet.{Fleet, coded_fleet, rows_of, IsKept};

    ghost Value = { Fleet };

    ghost coded = { coded_fleet kept_row.coded };

    ghost view = { λ b. record { rows = rows_of b.vehicles; limit = b.limit; kept = b.kept } };

    ghost invariant = { λ b. IsKept b.limit b.vehicles };
}

impl<T: Drop> From<AllocFailed<T>> for BookFault {
    ghost use Rattle.std.specs.Prelude.{◌≡◌};
    ghost use Rattle.mds_fleet.specs.declared.book.BookFault.TheVariants.{NoMemory};

    ghost from_gives = { λ _ e. e ≡ NoMemory };

    fn from(_refused: AllocFailed<T>) -> BookFault {
        BookFault::NoMemory
    }
}

impl Book {
    ghost use Rattle.mds_fleet.specs.Fleet.{Fits, MayAsk};

    /// An empty book with this limit, at most `MOST_VEHICLES`. Allocates nothing.
    pub fn new(alloc: Global, limit: u32) -> Book
        requires least { 1 ≤ limit }
        requires most { limit ≤ MOST_VEHICLES }
        ensures rows { result.rows ≡ finite.empty }
        ensures limit { result.limit ≡ limit }
        ensures fits { (published : Published) → Fits published result }
    {
        Book {
            vehicles: BTreeMap::new(alloc),
            limit,
            alloc,
            kept: BitmapIndex::new(),
            shares: WordInterner::new(alloc),
            reading: ReusableScratch::new(),
        }
    }

    /// Reads a report as `Report::read` does; a short one with the scratch memory of the book. The rows don't change.
    ///
    /// # Errors
    ///
    /// Those of `Report::read`.
    pub fn read_report(&mut self, text: &[u8]) -> Result<Report, TextFault>
        ensures read { Gives text_cause report_document result (read_report text.now) }
        ensures rows { self.new.rows ≡ self.old.rows }
        ensures limit { self.new.limit ≡ self.old.limit }
        ensures fits { (published : Published) → Fits published self.old → Fits published self.new }
    {
        Report::read_with(self.alloc, &mut self.reading, text)
    }

    /// Takes a report that arrives at this moment. The index stays right for whatever is published.
    ///
    /// # Errors
    ///
    /// In this order: `Future` for a timestamp after the moment; `Stale` where the device's row has a later timestamp;
    /// `FleetFull` where the device has no row and the book is at its limit. `NoMemory` where the allocation for a
    /// further device fails. A refused report changes nothing.
    pub fn report(&mut self, report: Report, moment: Moment) -> Result<Taken, BookFault>
        ensures taken { Take self.old.rows self.old.limit (report_document report) moment result self.new.rows }
        ensures limit { self.new.limit ≡ self.old.limit }
        ensures fits { (published : Published) → Fits published self.old → Fits published self.new }
    {
        let device = report.device;
        let taken = take(
            self.alloc,
            &mut self.vehicles,
            &mut self.shares,
            self.limit,
            report,
            moment,
        );
        match taken {
            Ok(Taken::New) => self.kept.arrive(device),
            Ok(Taken::Changed) => self.kept.note(device),
            _ => {}
        }
        taken
    }

    /// Drops the bitmap index. So what is kept is right for whatever is published.
    pub fn forget(&mut self)
        ensures rows { self.new.rows ≡ self.old.rows }
        ensures limit { self.new.limit ≡ self.old.limit }
        ensures fits { (published : Published) → Fits published self.new }
    {
        self.kept.clear();
    }

    /// Removes a device, and returns its row. Allocates nothing. The index stays right for whatever is published.
    ///
    /// # Errors
    ///
    /// `Absent` where the device has no row; then the book is unchanged.
    pub fn remove(&mut self, device: Id) -> Result<Vehicle, Absent>
        ensures held { option_map row_of (result_ok result) ≡ finite.get self.old.rows device }
        ensures rows { OnOk result (self.new.rows ≡ finite.remove self.old.rows device) }
        ensures absent { OnErr result (self.new.rows ≡ self.old.rows) }
        ensures limit { self.new.limit ≡ self.old.limit }
        ensures fits { (published : Published) → Fits published self.old → Fits published self.new }
    {
        match self.vehicles.remove(&device) {
            Some(vehicle) => {
                self.kept.depart(device);
                Ok(Box::into_inner(vehicle))
            }
            None => Err(Absent),
        }
    }

    /// The verdict on each rule of a policy, in the order of the rules, by the bitmap index. `local` is the local time
    /// of the question, `moment` the one up to which a vehicle's time in its state counts. `None` at the first question
    /// about the policy since the index was dropped, where the policy has more than 64 rules, where there are more than
    /// 4,194,304 vehicles, or where memory runs out; the caller then evaluates the rows. The rows don't change.
    pub fn verdicts<P: Places>(
        &mut self,
        policy: &Policy,
        places: &P,
        local: Local,
        moment: Moment,
    ) -> Option<Vec<RuleVerdict>>
        requires { MayAsk self.old (policy_document policy.now) (P.polygons places.now) }
        ensures exact { IfSome result (λ found. map verdict_document found.items
            ≡ verdicts (policy_document policy.now) (P.polygons places.now) (finite.values self.old.rows) local moment) }
        ensures within { IfSome result (λ found. All (λ v. v.measure < 2 ^ 63) found.items) }
        ensures rows { self.new.rows ≡ self.old.rows }
        ensures limit { self.new.limit ≡ self.old.limit }
        ensures fits { (published : Published) → Fits published self.old →
            IsPublished published (policy_document policy.now) (P.polygons places.now) → Fits published self.new }
    {
        let (alloc, vehicles) = (self.alloc, &self.vehicles);
        let at = LocalMoment { moment, local };
        self.kept.verdicts(alloc, policy, places, vehicles, at)
    }

    /// The row of a device, without a list of all rows. Allocates nothing.
    pub fn get(&self, device: Id) -> Option<&Vehicle>
        ensures { option_map (λ v. row_of v.now) result ≡ finite.get self.now.rows device }
    {
        match self.vehicles.get(&device) {
            Some(vehicle) => Some(&**vehicle),
            None => None,
        }
    }

    /// The number of devices, without a list of all rows. Allocates nothing.
    pub fn len(&self) -> usize
        ensures count { result ≡ finite.len self.now.rows }
        ensures within { result ≤ self.now.limit }
    {
        self.vehicles.len()
    }

    /// All rows, ascending by device id.
    ///
    /// # Errors
    ///
    /// Out of memory.
    pub fn rows(&self) -> Result<Vec<&Vehicle>, AllocError>
        ensures whole { IfOk result (λ rows. map (λ v. row_of v.now) rows.items ≡ finite.values self.now.rows) }
        ensures ascending { IfOk result (λ rows. IsStrictlySortedBy device_cmp (map (λ v. v.now.device) rows.items)) }
        ensures devices { IfOk result (λ rows. map (λ v. v.now.device) rows.items ≡ finite.keys self.now.rows) }
    {
        vehicle_refs(self.alloc, &self.vehicles)
    }
}

// References to all vehicles, ascending by device id.
fn vehicle_refs(
    alloc: Global,
    vehicles: &BTreeMap<Id, Box<Vehicle>>,
) -> Result<Vec<&Vehicle>, AllocError>
    ensures whole { IfOk result (λ rows. map (λ v. v.now) rows.items ≡ map (λ b. b.value) (values vehicles.now)) }
    ensures ordered { IsOrdered device_cmp vehicles.now }
{
    vehicles.values().map(|vehicle| &**vehicle).collect(alloc)
}

// Takes a report into a map in which each vehicle has its own device id as its key.
fn take(
    alloc: Global,
    vehicles: &mut BTreeMap<Id, Box<Vehicle>>,
    shares: &mut WordInterner,
    limit: u32,
    report: Report,
    moment: Moment,
) -> Result<Taken, BookFault>
    requires { IsKept limit vehicles.old }
    ensures taken { Take (rows_of vehicles.old) limit (report_document report) moment result (rows_of vehicles.new) }
    ensures kept { IsKept limit vehicles.new }
    ensures arrived { result ≡ Ok Taken.New → HasArrived report.device vehicles.old vehicles.new }
    ensures changed { result ≡ Ok Taken.Changed → IsChanged report.device vehicles.old vehicles.new }
{
    if report.timestamp > moment {
        return Err(BookFault::Future);
    }
    if let Some(vehicle) = vehicles.get_mut(&report.device) {
        return update(vehicle, shares, report);
    }
    if vehicles.len() >= limit as usize {
        return Err(BookFault::FleetFull);
    }
    let (device, since) = (report.device, report.timestamp);
    let vehicle = Box::new(alloc, vehicle_of(shares, report, since))?;
    vehicles.insert(device, vehicle)?;
    Ok(Taken::New)
}

// Takes a report of a device that has a row.
fn update(
    vehicle: &mut Vehicle,
    shares: &mut WordInterner,
    report: Report,
) -> Result<Taken, BookFault>
    ensures outcome { (held limit : ℕ) → result ≡ outcome_at (Some (row_of vehicle.old)) held limit (report_document report) }
    ensures changed { result ≡ Ok Taken.Changed → row_of vehicle.new ≡ row_after (Some (row_of vehicle.old)) (report_document report) }
    ensures others { result ≢ Ok Taken.Changed → row_of vehicle.new ≡ row_of vehicle.old }
{
    if vehicle.timestamp > report.timestamp {
        return Err(BookFault::Stale);
    }
    if is_reported(vehicle, &report) {
        return Ok(Taken::Same);
    }
    let since = run_start(vehicle, &report);
    *vehicle = vehicle_of(shares, report, since);
    Ok(Taken::Changed)
}

// Since when the state lasts that this report names, where this vehicle is the device's row so far.
fn run_start(vehicle: &Vehicle, report: &Report) -> Moment
    ensures { result ≡ run_start (row_of vehicle.now) (report_document report.now) }
{
    if vehicle.state() == report.state() {
        vehicle.since
    } else {
        report.timestamp
    }
}

// Whether a report equals the last accepted one in every member.
fn is_reported(vehicle: &Vehicle, report: &Report) -> bool
    ensures { IsTrue result ↔ (reported (row_of vehicle.now) ≡ report_document report.now) }
{
    vehicle.device == report.device
        && is_token(vehicle.vehicle_type(), report.vehicle_type())
        && are_tokens(vehicle.propulsion(), report.propulsion())
        && is_token(vehicle.state(), report.state())
        && are_tokens(vehicle.events(), report.events())
        && vehicle.timestamp == report.timestamp
        && vehicle.position == report.position
}

// Whether two tokens are equal.
pub(crate) fn is_token(token: Token, other: Token) -> bool
    ensures { IsTrue result ↔ (token ≡ other) }
{
    token == other
}

// Whether two lists of tokens are equal.
pub(crate) fn are_tokens(tokens: &[Token], others: &[Token]) -> bool
    ensures { IsTrue result ↔ (tokens.now ≡ others.now) }
{
    tokens == others
}

// The vehicle of a report, with interned words, whose state lasts since this moment.
fn vehicle_of(shares: &mut WordInterner, report: Report, since: Moment) -> Vehicle
    ensures { row_of result ≡ row_from (report_document report) since }
{
    let Report {
        device,
        make,
        condition,
        timestamp,
        position,
    } = report;
    Vehicle {
        device,
        make: shares.intern(make),
        condition: shares.intern(condition),
        timestamp,
        position,
        since,
    }
}
