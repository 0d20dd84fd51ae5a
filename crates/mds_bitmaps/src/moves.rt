//! What a device that comes or goes changes in the columns and in each cached bitmap.
ghost use Rattle.std.specs.Prelude.{◌≡◌, ◌≤◌, ◌*◌, suc, true, length, IfSome};
ghost use Rattle.std.specs.List.{insert};
ghost use Rattle.std.specs.BTreeMap.{IsOrdered};
ghost use Rattle.mds_bitmaps.specs.Index.{AreEdited, HasArrived, HasDeparted, IsListed, Published, Vehicles, device_cmp, most_bitmaps, with_place, without_place};

use crate::bitmap_index::{BitmapColumn, IndexedFleet, MOST_BITMAPS, log_change};
use mds_text::Id;

/// The most devices that may come or go between two questions, before the index is cleared: each
/// moves 24 bytes of every vehicle after it, and 8 more for each cached policy, so this many cost
/// less than reading all vehicles again.
const MOST_MOVES: usize = 64;

/// The index after a device came; `None` where too many came or went, where there is no room for
/// it, or out of memory. The device is logged as changed, so that its words are computed by the
/// next question.
pub(crate) fn with_arrival(listed: IndexedFleet, device: Id) -> Option<IndexedFleet>
    ensures room { IfSome result (λ _. length listed.columns.items * suc (length listed.devices.items) ≤ most_bitmaps) }
    ensures fits { IfSome result (λ new. (published : Published) (before after : Vehicles) → IsOrdered device_cmp before → HasArrived device before after →
        IsListed published before listed → IsListed published after new) }
{
    let mut listed = listed;
    let fleet = listed.devices.len();
    let Err(place) = listed.devices.binary_search(&device) else {
        return None;
    };
    let masks = listed.columns.len().saturating_mul(fleet.saturating_add(1));
    if listed.moved >= MOST_MOVES
        || masks > MOST_BITMAPS
        || !put_in(&mut listed.devices, place, device)
        || !put_word(&mut listed.sinces, place)
        || !put_bitmaps(&mut listed.columns, place)
        || !log_change(&mut listed.changed, fleet, device)
    {
        return None;
    }
    listed.moved += 1;
    Some(listed)
}

/// The index after a device went; `None` where too many came or went.
pub(crate) fn with_departure(listed: IndexedFleet, device: Id) -> Option<IndexedFleet>
    ensures { IfSome result (λ new. (published : Published) (before after : Vehicles) → IsOrdered device_cmp before → HasDeparted device before after →
        IsListed published before listed → IsListed published after new) }
{
    let mut listed = listed;
    let Ok(place) = listed.devices.binary_search(&device) else {
        return None;
    };
    if listed.moved >= MOST_MOVES {
        return None;
    }
    listed.devices.remove(place);
    take_word(&mut listed.sinces, place);
    take_bitmaps(&mut listed.columns, place);
    listed.moved += 1;
    Some(listed)
}

/// Inserts a value at an index of a list. A full list is enlarged by `MOST_MOVES` entries at once.
/// `false` where out of memory.
fn put_in<T: Copy>(list: &mut Vec<T>, place: usize, value: T) -> bool
    requires { place ≤ length list.old.items }
    ensures { result ≡ true → list.new.items ≡ insert list.old.items place value }
{
    if list.len() == list.capacity() && list.reserve_exact(MOST_MOVES).is_err() {
        return false;
    }
    list.insert(place, value).is_ok()
}

/// Inserts a 0 at an index of a list of words, where the list reaches so far. `false` where out of
/// memory.
fn put_word(words: &mut Vec<u64>, place: usize) -> bool
    ensures { result ≡ true → words.new.items ≡ with_place place words.old.items }
{
    words.len() < place || put_in(words, place, 0)
}

/// Inserts a 0 at an index of each column's bitmaps. `false` where out of memory.
fn put_bitmaps(columns: &mut [BitmapColumn], place: usize) -> bool
    ensures { result ≡ true → AreEdited (with_place place) columns.old columns.new }
{
    for column in columns.iter_mut() {
        if !put_word(&mut column.masks, place) {
            return false;
        }
    }
    true
}

/// Removes the word at an index, where the list reaches so far.
fn take_word(words: &mut Vec<u64>, place: usize)
    ensures { words.new.items ≡ without_place place words.old.items }
{
    if place < words.len() {
        words.remove(place);
    }
}

/// Removes the bitmap at an index of each column.
fn take_bitmaps(columns: &mut [BitmapColumn], place: usize)
    ensures { AreEdited (without_place place) columns.old columns.new }
{
    for column in columns.iter_mut() {
        take_word(&mut column.masks, place);
    }
}
