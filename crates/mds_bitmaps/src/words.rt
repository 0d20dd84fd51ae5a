//! The word that is cached of each vehicle.
ghost use Rattle.std.specs.Prelude.{◌≡◌, ◌≤◌, IfOk, IfSome, [], true, length};
ghost use Rattle.std.specs.BTreeMap.{IsOrdered, keys};
ghost use Rattle.mds_bitmaps.specs.Index.{AreKept, AreRead, device_cmp, rows_in};

use crate::matcher::PolicyMatcher;
use mds_match::Vehicle;
use mds_text::Id;
use std::alloc::{AllocError, Global};
use std::collections::BTreeMap;

/// What is cached of each vehicle, as one word.
pub(crate) trait VehicleWord {
    ghost use Rattle.std.specs.Prelude.{ℕ};
    ghost use Rattle.mds_match.specs.Row.{Row, row_of};

    /// Whether a word is that of a row.
    ghost is: { Self → Row → ℕ → Type 0 };

    /// The word of a vehicle.
    fn of(&self, vehicle: &Vehicle) -> u64
        ensures { is self.now (row_of vehicle.now) result };
}

/// When the run of a vehicle's state began, in milliseconds since the Unix epoch.
pub(crate) struct SinceWord;

impl VehicleWord for SinceWord {
    ghost use Rattle.mds_bitmaps.specs.Index.{IsSince};

    ghost is = { λ _ row word. IsSince row word };

    fn of(&self, vehicle: &Vehicle) -> u64 {
        vehicle.since.get() as u64
    }
}

/// The bitmap of the rules of a policy that a vehicle meets whenever they are open.
#[derive(Drop)]
pub(crate) struct BitmapWord<'a> {
    pub(crate) rules: PolicyMatcher<'a>,
    ghost few: { length rules.rules.items ≤ 64 },
}

impl<'a> VehicleWord for BitmapWord<'a> {
    ghost use Rattle.mds_bitmaps.specs.Index.{IsMaskBy};

    ghost is = { λ mask row word. IsMaskBy mask.rules row word };

    fn of(&self, vehicle: &Vehicle) -> u64 {
        self.rules.bitmap(vehicle)
    }
}

/// The words of all these vehicles, in the order of their device ids.
///
/// # Errors
///
/// Out of memory.
fn all_words<W: VehicleWord>(
    alloc: Global,
    word: &W,
    vehicles: &BTreeMap<Id, Box<Vehicle>>,
) -> Result<Vec<u64>, AllocError>
    ensures { IfOk result (λ words. AreRead (W.is word.now) (rows_in vehicles.now) words.items) }
{
    let mut words = Vec::with_capacity(alloc, vehicles.len())?;
    for vehicle in vehicles.values() {
        words.push(word.of(&**vehicle))?;
    }
    Ok(words)
}

/// Computes the words of changed devices again, where they are still there. `false` where one of
/// them isn't listed.
fn renew<W: VehicleWord>(
    words: &mut [u64],
    word: &W,
    devices: &[Id],
    vehicles: &BTreeMap<Id, Box<Vehicle>>,
    changed: &[Id],
) -> bool
    requires listed { devices.now ≡ keys vehicles.now }
    requires ordered { IsOrdered device_cmp vehicles.now }
    requires few { length words.old ≤ length devices.now }
    requires kept { AreKept (W.is word.now) vehicles.now devices.now words.old changed.now }
    ensures long { length words.new ≡ length words.old }
    ensures kept { result ≡ true → AreKept (W.is word.now) vehicles.now devices.now words.new [] }
{
    for device in changed {
        let Some(vehicle) = vehicles.get(device) else {
            continue;
        };
        let Ok(at) = devices.binary_search(device) else {
            return false;
        };
        if at < words.len() {
            words[at] = word.of(&**vehicle);
        }
    }
    true
}

/// The words of these vehicles: the cached ones, with those of changed devices computed again, or
/// all computed again where some are missing. `None` where out of memory.
pub(crate) fn refresh_words<W: VehicleWord>(
    alloc: Global,
    kept: Vec<u64>,
    word: &W,
    devices: &[Id],
    vehicles: &BTreeMap<Id, Box<Vehicle>>,
    changed: &[Id],
) -> Option<Vec<u64>>
    requires listed { devices.now ≡ keys vehicles.now }
    requires kept { AreKept (W.is word.now) vehicles.now devices.now kept.items changed.now }
    ensures { IfSome result (λ words. AreRead (W.is word.now) (rows_in vehicles.now) words.items) }
{
    if kept.len() != vehicles.len() {
        return all_words(alloc, word, vehicles).ok();
    }
    let mut words = kept;
    if !renew(&mut words, word, devices, vehicles, changed) {
        return None;
    }
    Some(words)
}
