//! Who gets a connection slot.
ghost use Rattle.std.specs.Prelude.{◌≡◌, ◌≤◌, ℕ, IsTrue, IsFalse};
ghost use Rattle.server_admission.specs.Slot.{most_of, without_any, is_over, is_full, HasMost};
ghost use Rattle.server_admission.specs.declared.slot.Decision.TheVariants.{Take, Close};

use crate::limits::{MOST_ANONYMOUS, MOST_CONNECTIONS, MOST_OF_CLIENT};

/// What to do for a connection that wants a slot.
#[derive(Clone, Copy, Debug, PartialEq, Eq)]
pub enum Decision {
    /// It takes a slot.
    Take,
    /// The oldest idle connection of the client at this index has to be closed for it.
    Close(usize),
}

/// What to do for a connection of the client at this index, which is counted already: `counts` has
/// those of anonymous, of the author and of each operator, and `all` is their number. Anonymous
/// have at most half of all slots and any other client at most `MOST_OF_CLIENT`: beyond that, one of
/// its own is closed. One slot is reserved for each client that has none: where all others are
/// taken, a connection of the client with the most is closed.
pub fn slot_for(counts: &[usize], all: usize, client: usize) -> Decision
    ensures own { IsTrue (is_over counts.now client) → result ≡ Close client }
    ensures most { IsFalse (is_over counts.now client) → IsTrue (is_full counts.now all)
        → (place : ℕ) × (result ≡ Close place) × HasMost counts.now place }
    ensures takes { IsFalse (is_over counts.now client) → IsFalse (is_full counts.now all) → result ≡ Take }
{
    if is_over(counts, client) {
        Decision::Close(client)
    } else if is_full(counts, all) {
        Decision::Close(fullest(counts))
    } else {
        Decision::Take
    }
}

/// The most connections of the client at this index.
fn most_of(client: usize) -> usize
    ensures { result ≡ most_of client }
{
    if client == 0 {
        MOST_ANONYMOUS
    } else {
        MOST_OF_CLIENT
    }
}

/// Whether the client at this index has more connections than it may.
fn is_over(counts: &[usize], client: usize) -> bool
    ensures { result ≡ is_over counts.now client }
{
    match counts.get(client) {
        Some(count) => *count > most_of(client),
        None => false,
    }
}

/// How many clients have no connection, anonymous aside.
fn without_any(counts: &[usize]) -> usize
    ensures { result ≡ without_any counts.now }
{
    counts.iter().skip(1).filter(|count| **count == 0).count()
}

/// Whether so many connections leave too few slots for clients that have none.
fn is_full(counts: &[usize], all: usize) -> bool
    ensures { result ≡ is_full counts.now all }
{
    all > MOST_CONNECTIONS.saturating_sub(without_any(counts))
}

/// The index of the client with the most connections.
fn fullest(counts: &[usize]) -> usize
    ensures { HasMost counts.now result }
{
    let mut most = 0;
    let mut held = 0;
    for (place, count) in counts.iter().enumerate() {
        if *count > held {
            most = place;
            held = *count;
        }
    }
    most
}
