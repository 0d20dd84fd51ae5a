//! How a request body arrives.
ghost use Rattle.std.specs.Prelude.{◌≡◌};
ghost use Rattle.server_admission.specs.Arrival.{arrived_of, body_in, closes_after, piece_at};

use crate::limits::MOST_DISCARDED;
use bytes::Bytes;
use mds_request::MOST_BODY;

/// What becomes of a piece of a body.
#[derive(Clone, Copy, Debug, PartialEq, Eq)]
pub enum Piece {
    /// It is stored.
    Kept,
    /// The body is too long: the piece is read and discarded.
    Passed,
    /// Nothing more is read.
    Refused,
}

/// How the reading of a body ended.
#[derive(Clone, Copy, Debug, PartialEq, Eq)]
pub enum BodyEnd {
    /// The body ended.
    Over,
    /// It went on after all that is read and discarded.
    Refused,
    /// It broke off, or wasn't framed as HTTP says.
    Broken,
    /// Out of memory.
    NoMemory,
}

/// A request body as it arrived.
#[derive(Drop)]
pub enum Arrived {
    /// All of it.
    Whole(Bytes),
    /// It broke off, or wasn't framed as HTTP says.
    Broken,
    /// It was over the limit of a body.
    TooLong,
    /// Out of memory.
    NoMemory,
}

impl Piece {
    /// What becomes of a piece of this length, behind so many bytes of its body.
    pub fn at(before: usize, length: usize) -> Piece
        ensures { result ≡ piece_at before length }
    {
        let Some(total) = before.checked_add(length) else {
            return Piece::Refused;
        };
        if total <= MOST_BODY {
            Piece::Kept
        } else if total <= MOST_BODY + MOST_DISCARDED {
            Piece::Passed
        } else {
            Piece::Refused
        }
    }
}

impl Arrived {
    /// The body of which these bytes were read, and whose reading ended so.
    pub fn of(end: BodyEnd, body: Bytes) -> Arrived
        ensures { result ≡ arrived_of end body }
    {
        match end {
            BodyEnd::Over if body.len() <= MOST_BODY => Arrived::Whole(body),
            BodyEnd::Over | BodyEnd::Refused => Arrived::TooLong,
            BodyEnd::Broken => Arrived::Broken,
            BodyEnd::NoMemory => Arrived::NoMemory,
        }
    }

    /// The bytes of the body; none, where it didn't arrive whole.
    pub fn bytes(&self) -> &[u8]
        ensures { result.now ≡ body_in self.now }
    {
        match self {
            Arrived::Whole(body) => body,
            Arrived::Broken | Arrived::TooLong | Arrived::NoMemory => &[],
        }
    }

    /// Whether the connection is closed after the response to this body's request.
    pub fn closes(&self) -> bool
        ensures { result ≡ closes_after self.now }
    {
        match self {
            Arrived::Whole(_) => false,
            Arrived::Broken | Arrived::TooLong | Arrived::NoMemory => true,
        }
    }
}
