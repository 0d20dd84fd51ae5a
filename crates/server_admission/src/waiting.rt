//! How much may wait.
ghost use Rattle.std.specs.Prelude.{◌≡◌, ◌+◌, nat_le};
ghost use Rattle.server_admission.specs.Waiting.{counted_of, may_wait_beside};

use crate::limits::{MOST_HELD, MOST_HELD_BY_ALL, MOST_WAITING};
use mds_request::MOST_BODY;

/// What waits of one client: requests whose responses aren't made, and the bytes that their bodies
/// count as.
#[derive(Clone, Copy, Debug, PartialEq, Eq)]
pub struct Load {
    pub requests: usize,
    pub bytes: usize,
}

/// How many bytes a body of this declared length counts as; the maximum, where none is declared or
/// a larger one.
pub fn load_bytes_of(length: Option<u64>) -> usize
    ensures { result ≡ counted_of length }
{
    match length {
        Some(length) if length <= MOST_BODY as u64 => length as usize,
        _ => MOST_BODY,
    }
}

/// Whether so many bytes more fit with those that are held.
fn fits(held: usize, more: usize, most: usize) -> bool
    ensures { result ≡ nat_le (held + more) most }
{
    match held.checked_add(more) {
        Some(total) => total <= most,
        None => false,
    }
}

/// Whether one more request of a client may wait, whose body counts as so many bytes, given the
/// client's load and the bytes of all. Where it may not, the server is busy.
pub fn may_wait(load: Load, all: usize, bytes: usize) -> bool
    ensures { result ≡ may_wait_beside load all bytes }
{
    load.requests < MOST_WAITING
        && fits(load.bytes, bytes, MOST_HELD)
        && fits(all, bytes, MOST_HELD_BY_ALL)
}
