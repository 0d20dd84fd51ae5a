//! The lists of a feed's files, and the entries for a vehicle in them.

use crate::end::TransferEnd;
use crate::sources::ParsedFile;
use cli_documents::{id_member, list_member, member_of, text_member};
use mds_text::{Id, Tree};
use std::alloc::Global;
use std::collections::BTreeMap;

/// The most vehicle types that are indexed.
const MOST_TYPES: usize = 1_024;

/// A file that was read.
#[derive(Drop)]
pub(crate) struct FeedFile {
    /// Its index among the files.
    pub file: usize,
    pub source: ParsedFile,
}

/// The position of an entry in the files.
#[derive(Clone, Copy)]
pub(crate) struct EntryPosition {
    /// The index of its file among those that were read.
    sheet: usize,
    /// Its index in its list.
    place: usize,
}

/// The value of a file's member `data`, or the file itself.
fn value_of(file: &Tree) -> &Tree {
    match member_of(file, "data") {
        Some(value) => value,
        None => file,
    }
}

/// The entries of a list; none where the file hasn't the list.
fn entries<'t>(file: &'t Tree, name: &str) -> &'t [Tree] {
    match list_member(value_of(file), name) {
        Some(list) => list,
        None => &[],
    }
}

/// Whether a file has a list of this name.
fn has(file: &Tree, name: &str) -> bool {
    list_member(value_of(file), name).is_some()
}

/// Whether a file has one of the lists of a feed.
pub(crate) fn is_feed(file: &Tree) -> bool {
    has(file, "vehicles_status") || has(file, "vehicles") || has(file, "vehicle_types")
}

/// MDS: the status of vehicles.
pub(crate) fn statuses_in(file: &Tree) -> &[Tree] {
    entries(file, "vehicles_status")
}

/// MDS: vehicles, with their types. GBFS: vehicles, with their status.
pub(crate) fn vehicles_in(file: &Tree) -> &[Tree] {
    entries(file, "vehicles")
}

/// GBFS: the types of vehicles.
fn types_in(file: &Tree) -> &[Tree] {
    entries(file, "vehicle_types")
}

/// Whether an entry of the list of vehicles is one of GBFS.
pub(crate) fn is_gbfs(vehicle: &Tree) -> bool {
    member_of(vehicle, "device_id").is_none()
}

/// An index of the entries of MDS vehicles, and of vehicle types.
#[derive(Drop)]
pub(crate) struct FeedIndex {
    vehicles: BTreeMap<Id, EntryPosition>,
    types: Vec<EntryPosition>,
}

impl FeedIndex {
    /// An empty index.
    pub(crate) fn new(alloc: Global) -> FeedIndex {
        FeedIndex {
            vehicles: BTreeMap::new(alloc),
            types: Vec::new(alloc),
        }
    }

    /// Adds a vehicle of MDS. Of two with one identifier the last counts.
    ///
    /// # Errors
    ///
    /// `NoMemory`.
    fn add_vehicle(&mut self, device: Id, entry: EntryPosition) -> Result<(), TransferEnd> {
        match self.vehicles.insert(device, entry) {
            Ok(_) => Ok(()),
            Err(_) => Err(TransferEnd::NoMemory),
        }
    }

    /// Adds a type, unless there are 1,024. Of two with one identifier the first counts.
    ///
    /// # Errors
    ///
    /// `NoMemory`.
    fn add_type(&mut self, entry: EntryPosition) -> Result<(), TransferEnd> {
        if self.types.len() >= MOST_TYPES {
            return Ok(());
        }
        match self.types.push(entry) {
            Ok(()) => Ok(()),
            Err(_) => Err(TransferEnd::NoMemory),
        }
    }

    /// Adds the entries of a file.
    ///
    /// # Errors
    ///
    /// `NoMemory`.
    pub(crate) fn add_file(&mut self, sheet: usize, file: &Tree) -> Result<(), TransferEnd> {
        for (place, vehicle) in vehicles_in(file).iter().enumerate() {
            if let Some(device) = id_member(vehicle, "device_id") {
                self.add_vehicle(device, EntryPosition { sheet, place })?;
            }
        }
        for (place, _) in types_in(file).iter().enumerate() {
            self.add_type(EntryPosition { sheet, place })?;
        }
        Ok(())
    }

    /// The position of a vehicle of MDS, by its status.
    fn vehicle(&self, status: &Tree) -> Option<EntryPosition> {
        let device = id_member(status, "device_id")?;
        match self.vehicles.get(&device) {
            Some(entry) => Some(*entry),
            None => None,
        }
    }
}

/// The entry of a status's vehicle.
pub(crate) fn vehicle_of<'s>(
    sheets: &'s [FeedFile],
    known: &FeedIndex,
    status: &Tree,
) -> Option<&'s Tree> {
    let entry = known.vehicle(status)?;
    let sheet = sheets.get(entry.sheet)?;
    vehicles_in(&sheet.source.tree).get(entry.place)
}

/// The entry of a vehicle type at this position.
fn type_at(sheets: &[FeedFile], entry: EntryPosition) -> Option<&Tree> {
    let sheet = sheets.get(entry.sheet)?;
    types_in(&sheet.source.tree).get(entry.place)
}

/// Whether an entry is that of the vehicle type of this identifier.
fn is_type(entry: Option<&Tree>, name: &str) -> bool {
    match entry {
        Some(entry) => match text_member(entry, "vehicle_type_id") {
            Some(own) => own == name,
            None => false,
        },
        None => false,
    }
}

/// The entry of a vehicle's type.
pub(crate) fn type_of<'s>(
    sheets: &'s [FeedFile],
    known: &FeedIndex,
    vehicle: &Tree,
) -> Option<&'s Tree> {
    let name = text_member(vehicle, "vehicle_type_id")?;
    for entry in &known.types {
        if is_type(type_at(sheets, *entry), name) {
            return type_at(sheets, *entry);
        }
    }
    None
}
