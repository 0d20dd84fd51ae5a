//! The bitmaps of an operator's vehicles, cached by policy, and the verdicts that are made of them.
ghost use Rattle.std.specs.Prelude.{◌≡◌, ◌≤◌, ◌<◌, ◌/◌, ◌∷◌, ◌++◌, [], List, ℕ, true, All, IfSome, drop, length, max};
ghost use Rattle.std.specs.BTreeMap.{IsOrdered, btree_map_len, keys};
ghost use Rattle.mds_policy.specs.Policy.{policy_document};
ghost use Rattle.mds_bitmaps.specs.Masks.{IsMask};
ghost use Rattle.mds_bitmaps.specs.Index.{AreKept, AreRead, AreRows, HasRoom, IsChanged, IsColumn, IsListed, IsSince, Published, Vehicles, device_cmp, has_column, rows_in};

use crate::bits::MOST_RULES;
use crate::columns::{Columns, verdicts_by};
use crate::matcher::PolicyMatcher;
use crate::moves::{with_arrival, with_departure};
use crate::words::{BitmapWord, SinceWord, refresh_words};
use mds_match::{LocalMoment, Places, Vehicle};
use mds_policy::Policy;
use mds_text::Id;
use mds_verdict::RuleVerdict;
use std::alloc::Global;
use std::collections::BTreeMap;

/// The most bitmaps that are cached for an operator's vehicles, over all policies.
pub(crate) const MOST_BITMAPS: usize = 4_194_304;

/// The log holds at least this many changed devices, or an eighth of the fleet where that is more,
/// before the index is dropped.
const LEAST_NOTES: usize = 64;

/// The bitmaps of one policy, by the indices of the devices, as far as they go, and how much of the
/// log of changed devices they have taken in.
#[derive(Drop)]
pub(crate) struct BitmapColumn {
    pub(crate) policy: Id,
    pub(crate) masks: Vec<u64>,
    pub(crate) seen: usize,
}

/// The devices in the order of their ids, when the runs of their states began and how much of the
/// log these have taken in, the columns of policies, the log of changed devices, and how many
/// devices came or went since the last question.
#[derive(Drop)]
pub(crate) struct IndexedFleet {
    pub(crate) devices: Vec<Id>,
    pub(crate) sinces: Vec<u64>,
    pub(crate) seen: usize,
    pub(crate) columns: Vec<BitmapColumn>,
    pub(crate) changed: Vec<Id>,
    pub(crate) moved: usize,
}

/// The bitmap index of an operator's vehicles, where there is one, and which policies were asked
/// about since it was last cleared.
#[derive(Drop)]
pub struct BitmapIndex {
    pub(crate) listed: Option<IndexedFleet>,
    pub(crate) asked: Option<Vec<Id>>,
}

impl BitmapIndex {
    ghost use Rattle.std.specs.Prelude.{◌≡◌, ◌^◌, ◌<◌, List, ℕ, All, IfSome, map};
    ghost use Rattle.std.specs.BTreeMap.{IsOrdered, btree_map_len};
    ghost use Rattle.mds_policy.specs.Policy.{policy_document};
    ghost use Rattle.mds_verdict.specs.Verdict.{verdict_document, verdicts};
    ghost use Rattle.mds_bitmaps.specs.Index.{AreOwn, Fits, HasArrived, HasDeparted, HasRoom, IsChanged, IsPublished, MayAsk, Published, Vehicles, device_cmp, rows_in};

    /// An empty index. Allocates nothing.
    pub fn new() -> BitmapIndex
        ensures { (published : Published) (vehicles : Vehicles) → Fits published vehicles result }
    {
        BitmapIndex {
            listed: None,
            asked: None,
        }
    }

    /// Notes that the vehicle of a device changed, where no device came or went. Where the log has
    /// no room for it, or out of memory, the index is dropped.
    pub fn note(&mut self, device: Id)
        ensures { (published : Published) (before after : Vehicles) → IsChanged device before after →
            Fits published before self.old → Fits published after self.new }
    {
        if let Some(listed) = self.listed.take() {
            self.listed = with_change(listed, device);
        }
    }

    /// Notes that a device came. Where more than 64 came or went since the last question, where
    /// there is no room for it, or out of memory, the index is cleared.
    pub fn arrive(&mut self, device: Id)
        ensures { (published : Published) (before after : Vehicles) → IsOrdered device_cmp before → HasArrived device before after →
            Fits published before self.old → Fits published after self.new }
    {
        if let Some(listed) = self.listed.take() {
            match with_arrival(listed, device) {
                Some(listed) => self.listed = Some(listed),
                None => self.clear(),
            }
        }
    }

    /// Notes that a device went. Where more than 64 came or went since the last question, the index
    /// is cleared. Allocates nothing.
    pub fn depart(&mut self, device: Id)
        ensures { (published : Published) (before after : Vehicles) → IsOrdered device_cmp before → HasDeparted device before after →
            Fits published before self.old → Fits published after self.new }
    {
        if let Some(listed) = self.listed.take() {
            match with_departure(listed, device) {
                Some(listed) => self.listed = Some(listed),
                None => self.clear(),
            }
        }
    }

    /// Drops the index, and forgets which policies were asked about.
    pub fn clear(&mut self)
        ensures { (published : Published) (vehicles : Vehicles) → Fits published vehicles self.new }
    {
        self.listed = None;
        self.asked = None;
    }

    /// One verdict for each rule of a policy, in their order, at the local time of a moment, up to
    /// which a vehicle's time in its state is measured: brings the index up to date, and reads it
    /// alone.
    ///
    /// `None` where the policy wasn't asked about since the index was last cleared, where it has
    /// more than 64 rules, where there are more than 4,194,304 vehicles, where its bitmaps have no
    /// room next to the cached ones, or out of memory; then the vehicles themselves must be
    /// evaluated. So a question that is asked once, or whose bitmaps can't be cached, costs no more
    /// than that.
    pub fn verdicts<P: Places>(
        &mut self,
        alloc: Global,
        policy: &Policy,
        places: &P,
        vehicles: &BTreeMap<Id, Box<Vehicle>>,
        at: LocalMoment,
    ) -> Option<Vec<RuleVerdict>>
        requires own { AreOwn vehicles.now }
        requires asked { MayAsk self.old (policy_document policy.now) (P.polygons places.now) vehicles.now }
        ensures exact { IfSome result (λ found. map verdict_document found.items
            ≡ verdicts (policy_document policy.now) (P.polygons places.now) (rows_in vehicles.now) at.local at.moment) }
        ensures fits { IfSome result (λ found. All (λ v. v.measure < 2 ^ 63) found.items) }
        ensures room { IfSome result (λ found. HasRoom self.old.listed (policy_document policy.now).id (btree_map_len vehicles.now)) }
        ensures kept { (published : Published) → Fits published vehicles.now self.old →
            IsPublished published (policy_document policy.now) (P.polygons places.now) → Fits published vehicles.now self.new }
    {
        if policy.rules().len() > MOST_RULES || vehicles.len() > MOST_BITMAPS {
            return None;
        }
        if !has_room(&self.listed, policy, vehicles) {
            return None;
        }
        if !note_question(alloc, &mut self.asked, policy.id()) {
            return None;
        }
        let listed = fleet_or_new(alloc, self.listed.take(), vehicles)?;
        let mut listed = with_sinces(alloc, listed, vehicles)?;
        let column = take_column(
            &mut listed.columns,
            alloc,
            policy.id(),
            listed.changed.len(),
        );
        let column = refresh_column(alloc, column, policy, places, &listed, vehicles)?;
        let columns = Columns {
            devices: &listed.devices,
            sinces: &listed.sinces,
            masks: &column.masks,
        };
        let found = verdicts_by(alloc, policy, &columns, at.local, at.moment);
        self.listed = Some(put_back(listed, column));
        found.ok()
    }
}

/// Whether a column of this policy is cached.
fn has_column(columns: &[BitmapColumn], policy: Id) -> bool
    ensures { result ≡ has_column columns.now policy }
{
    columns.iter().any(|column| column.policy == policy)
}

/// Whether a column of this policy has room: it is cached already, or with one more column there
/// are at most 4,194,304 bitmaps.
fn has_room(
    kept: &Option<IndexedFleet>,
    policy: &Policy,
    vehicles: &BTreeMap<Id, Box<Vehicle>>,
) -> bool
    ensures { result ≡ true → HasRoom kept.now (policy_document policy.now).id (btree_map_len vehicles.now) }
{
    let Some(listed) = kept else {
        return true;
    };
    let columns = listed.columns.len().saturating_add(1);
    has_column(&listed.columns, policy.id())
        || columns.saturating_mul(vehicles.len()) <= MOST_BITMAPS
}

/// Whether a policy was asked about before. It counts as asked about from now on, unless out of
/// memory.
fn note_question(alloc: Global, asked: &mut Option<Vec<Id>>, policy: Id) -> bool
    ensures known { result ≡ true → asked.new ≡ asked.old }
{
    let mut policies = asked.take().unwrap_or_else(|| Vec::new(alloc));
    let is_there = policies.contains(&policy);
    if !is_there {
        policies.push(policy).ok();
    }
    *asked = Some(policies);
    is_there
}

/// The index after a device changed; `None` where the change can't be logged.
fn with_change(listed: IndexedFleet, device: Id) -> Option<IndexedFleet>
    ensures { IfSome result (λ new. (published : Published) (before after : Vehicles) → IsChanged device before after →
        IsListed published before listed → IsListed published after new) }
{
    let mut listed = listed;
    let fleet = listed.devices.len();
    if !log_change(&mut listed.changed, fleet, device) {
        return None;
    }
    Some(listed)
}

/// Logs a changed device. `false` where the log of a fleet of this size has no room, or out of
/// memory.
pub(crate) fn log_change(changed: &mut Vec<Id>, fleet: usize, device: Id) -> bool
    ensures logged { result ≡ true → changed.new.items ≡ changed.old.items ++ device ∷ [] }
    ensures bound { result ≡ true → length changed.old.items < max 64 (fleet / 8) }
{
    changed.len() < LEAST_NOTES.max(fleet / 8) && changed.push(device).is_ok()
}

/// The index, or where there is none a new one of the devices alone. `None` where out of memory.
fn fleet_or_new(
    alloc: Global,
    kept: Option<IndexedFleet>,
    vehicles: &BTreeMap<Id, Box<Vehicle>>,
) -> Option<IndexedFleet>
    requires { IfSome kept (AreRows vehicles.now) }
    ensures rows { IfSome result (AreRows vehicles.now) }
    ensures kept { IfSome result (λ new. (published : Published) → IfSome kept (IsListed published vehicles.now) → IsListed published vehicles.now new) }
{
    match kept {
        Some(listed) => Some(listed),
        None => without_columns(alloc, vehicles),
    }
}

/// The index with the beginnings of states up to date. `None` where out of memory.
fn with_sinces(
    alloc: Global,
    listed: IndexedFleet,
    vehicles: &BTreeMap<Id, Box<Vehicle>>,
) -> Option<IndexedFleet>
    requires ordered { IsOrdered device_cmp vehicles.now }
    requires devices { listed.devices.items ≡ keys vehicles.now }
    requires seen { listed.seen ≤ length listed.changed.items }
    requires sinces { AreKept IsSince vehicles.now listed.devices.items listed.sinces.items (drop listed.seen listed.changed.items) }
    ensures devices { IfSome result (λ new. new.devices.items ≡ keys vehicles.now) }
    ensures sinces { IfSome result (λ new. AreRead IsSince (rows_in vehicles.now) new.sinces.items) }
    ensures kept { IfSome result (λ new. (published : Published) → IsListed published vehicles.now listed → IsListed published vehicles.now new) }
{
    let IndexedFleet {
        devices,
        sinces,
        seen,
        columns,
        changed,
        moved: _,
    } = listed;
    let sinces = refresh_words(
        alloc,
        sinces,
        &SinceWord,
        &devices,
        vehicles,
        &changed[seen..],
    )?;
    let seen = changed.len();
    Some(IndexedFleet {
        devices,
        sinces,
        seen,
        columns,
        changed,
        moved: 0,
    })
}

/// An index of the devices alone. `None` where out of memory.
fn without_columns(alloc: Global, vehicles: &BTreeMap<Id, Box<Vehicle>>) -> Option<IndexedFleet>
    ensures rows { IfSome result (AreRows vehicles.now) }
    ensures kept { IfSome result (λ new. (published : Published) → IsListed published vehicles.now new) }
{
    let Ok(devices) = vehicles.keys().copied().collect(alloc) else {
        return None;
    };
    Some(IndexedFleet {
        devices,
        sinces: Vec::new(alloc),
        seen: 0,
        columns: Vec::new(alloc),
        changed: Vec::new(alloc),
        moved: 0,
    })
}

/// Takes the column of a policy out of the index; a new one without bitmaps where there is none.
fn take_column(
    columns: &mut Vec<BitmapColumn>,
    alloc: Global,
    policy: Id,
    seen: usize,
) -> BitmapColumn
    ensures policy { result.policy ≡ policy }
    ensures kept { (published : Published) (vehicles : Vehicles) (devices changed : List (List ℕ)) →
        length changed ≡ seen → published.lasting policy ≡ true →
        All (IsColumn published vehicles devices changed) columns.old.items →
        All (IsColumn published vehicles devices changed) columns.new.items × IsColumn published vehicles devices changed result }
{
    if let Some(place) = columns.iter().position(|column| column.policy == policy) {
        return columns.remove(place);
    }
    BitmapColumn {
        policy,
        masks: Vec::new(alloc),
        seen,
    }
}

/// The column of a policy with all its bitmaps, up to date. `None` where out of memory.
fn refresh_column<P: Places>(
    alloc: Global,
    column: BitmapColumn,
    policy: &Policy,
    places: &P,
    listed: &IndexedFleet,
    vehicles: &BTreeMap<Id, Box<Vehicle>>,
) -> Option<BitmapColumn>
    requires few { length (policy_document policy.now).rules ≤ 64 }
    requires devices { listed.now.devices.items ≡ keys vehicles.now }
    requires seen { column.seen ≤ length listed.now.changed.items }
    requires kept { AreKept (λ row word. IsMask (policy_document policy.now) (P.polygons places.now) row word) vehicles.now
        listed.now.devices.items column.masks.items (drop column.seen listed.now.changed.items) }
    ensures policy { IfSome result (λ new. new.policy ≡ column.policy) }
    ensures seen { IfSome result (λ new. new.seen ≡ length listed.now.changed.items) }
    ensures masks { IfSome result (λ new. AreRead (λ row word. IsMask (policy_document policy.now) (P.polygons places.now) row word)
        (rows_in vehicles.now) new.masks.items) }
{
    let BitmapColumn {
        policy: id,
        masks,
        seen,
    } = column;
    let Ok(rules) = PolicyMatcher::new(alloc, policy, places) else {
        return None;
    };
    let mask = BitmapWord { rules };
    let changed = &listed.changed[seen..];
    let masks = refresh_words(alloc, masks, &mask, &listed.devices, vehicles, changed)?;
    Some(BitmapColumn {
        policy: id,
        masks,
        seen: listed.changed.len(),
    })
}

/// The index with this column added; without it where out of memory.
fn put_back(listed: IndexedFleet, column: BitmapColumn) -> IndexedFleet
    ensures { (published : Published) (vehicles : Vehicles) → IsListed published vehicles listed →
        IsColumn published vehicles listed.devices.items listed.changed.items column → IsListed published vehicles result }
{
    let mut listed = listed;
    if listed.columns.push(column).is_err() {
        return listed;
    }
    listed
}
