//! Interned words: vehicles with equal words share one `Arc`.
ghost use Rattle.std.specs.Prelude.{◌≡◌, ◌≤◌, IfSome, IsTrue};
ghost use Rattle.mds_match.specs.Row.{words_of};

use crate::book::{are_tokens, is_token};
use mds_match::Words;
use mds_text::Token;
use std::alloc::Global;
use std::sync::Arc;

/// The number of sets.
const SETS: usize = 256;

/// The number of slots of a set.
const SLOTS_PER_SET: usize = 4;

/// An interner for the words of vehicles: a set-associative cache of at most 1,024 entries. Each hit is compared, so
/// that contracts need not see the entries. Words that no vehicle has any more stay until others replace them.
#[derive(Drop)]
pub(crate) struct WordInterner {
    // set by set; empty before the first words, and while memory for all slots is refused
    places: Vec<Option<Arc<Words>>>,
}

impl WordInterner {
    /// An empty interner. Allocates nothing.
    pub fn new(alloc: Global) -> WordInterner {
        WordInterner {
            places: Vec::new(alloc),
        }
    }

    /// A reference to these words: the interned one, where there is an equal one, else this one. Where memory for the
    /// slots is refused, it is this one.
    pub fn intern(&mut self, words: Arc<Words>) -> Arc<Words>
        ensures { words_of result.value ≡ words_of words.value }
    {
        let first = set_start(&words);
        if let Some(share) = lookup_words(&self.places, first, &words) {
            return share;
        }
        store_words(&mut self.places, first, &words);
        words
    }
}

/// Puts a reference to words into the set that begins at this slot.
fn store_words(places: &mut Vec<Option<Arc<Words>>>, first: usize, words: &Arc<Words>)
    requires { first ≤ 1020 }
{
    allocate_slots(places);
    let free = free_slot(places, first);
    if let Some(place) = places.get_mut(free) {
        *place = Arc::try_clone(words).ok();
    }
}

/// Allocates the slots, unless they are there or the allocation fails.
fn allocate_slots(places: &mut Vec<Option<Arc<Words>>>) {
    if places.is_empty() && places.reserve(SETS * SLOTS_PER_SET).is_ok() {
        for _ in 0..SETS * SLOTS_PER_SET {
            let _ = places.push(None);
        }
    }
}

/// The first free slot of a set, else its first slot.
fn free_slot(places: &[Option<Arc<Words>>], first: usize) -> usize
    requires { first ≤ 1020 }
{
    for place in first..first + SLOTS_PER_SET {
        if let Some(None) = places.get(place) {
            return place;
        }
    }
    first
}

/// A reference to equal words, looked up in the set that begins at this slot.
fn lookup_words(places: &[Option<Arc<Words>>], first: usize, words: &Words) -> Option<Arc<Words>>
    requires { first ≤ 1020 }
    ensures { IfSome result (λ share. words_of share.value ≡ words_of words.now) }
{
    for place in places.get(first..first + SLOTS_PER_SET)? {
        if let Some(share) = clone_if_equal(place, words) {
            return Some(share);
        }
    }
    None
}

/// A further reference to the words in a slot, where they equal these.
fn clone_if_equal(place: &Option<Arc<Words>>, words: &Words) -> Option<Arc<Words>>
    ensures { IfSome result (λ share. words_of share.value ≡ words_of words.now) }
{
    match place {
        Some(share) if are_words(share, words) => Arc::try_clone(share).ok(),
        _ => None,
    }
}

/// Whether words are equal.
fn are_words(words: &Words, others: &Words) -> bool
    ensures { IsTrue result → words_of words.now ≡ words_of others.now }
{
    is_token(words.word, others.word) && are_tokens(&words.types, &others.types)
}

/// The first slot of the set for these words.
fn set_start(words: &Words) -> usize
    ensures { result ≤ 1020 }
{
    let mut sum = hash_with(0xcbf2_9ce4_8422_2325, words.word);
    for word in &words.types {
        sum = hash_with(sum, *word);
    }
    (sum >> 32) as usize % SETS * SLOTS_PER_SET
}

/// The hash with the bytes of a further word (FNV-1a).
fn hash_with(sum: u64, word: Token) -> u64 {
    let mut mixed = sum;
    for byte in word.as_str().as_bytes() {
        mixed = (mixed ^ u64::from(*byte)).wrapping_mul(0x0000_0100_0000_01b3);
    }
    mixed
}
