//! Where a journal ends.
ghost use Rattle.std.specs.Prelude.{◌≡◌, true, IfSome};
ghost use Rattle.journal_register.specs.Order.{
  is_end,
  is_generation,
  is_earlier,
  is_extent,
  is_switch,
  is_head,
  is_before,
  next_generation,
};

use crate::owner::{MOST_COUNT, Owner};
use journal_file::LogEnd;

/// A writing of the journal, under whose name its chunks stand: the first one, or a shorter one that takes the place of
/// the one before. A name is given once.
#[derive(Clone, Copy, Debug, PartialEq, Eq)]
pub struct Generation {
    /// The epoch of the owner that makes it.
    pub epoch: u64,
    /// Which of this owner's generations it is, those that were given up counted.
    pub attempt: u64,
}

/// How far the chunks of a generation go.
#[derive(Clone, Copy, Debug, PartialEq, Eq)]
pub struct Extent {
    /// Whose chunks they are.
    pub generation: Generation,
    /// How many chunks there are, from index 0 on.
    pub chunks: u64,
    /// Where the journal's list ends in their bytes.
    pub end: LogEnd,
}

/// How the head came to its generation. Both ends are of journals that lead to the same server.
#[derive(Clone, Copy, Debug, PartialEq, Eq)]
pub struct Switch {
    /// How far the generation before went; all 0 where there was none.
    pub from: Extent,
    /// How many chunks the head's generation had then.
    pub chunks: u64,
    /// Where its list ended then.
    pub end: LogEnd,
}

/// The head of a register: what of its chunks is the journal. What lies behind it isn't there.
#[derive(Clone, Copy, Debug, PartialEq, Eq)]
pub struct Head {
    /// The generation that is the journal, and how far it goes.
    pub extent: Extent,
    /// How many times an owner has shown that it lives, where it had nothing to append.
    pub beat: u64,
    /// How it came to that generation.
    pub switch: Switch,
}

/// The end of an empty journal.
const NO_END: LogEnd = LogEnd {
    position: 0,
    sum: 0,
    count: 0,
};

/// No chunk of no generation.
const NO_EXTENT: Extent = Extent {
    generation: Generation {
        epoch: 0,
        attempt: 0,
    },
    chunks: 0,
    end: NO_END,
};

/// No switch: the head has its first generation.
const NO_SWITCH: Switch = Switch {
    from: NO_EXTENT,
    chunks: 0,
    end: NO_END,
};

/// The head of a register that nobody has claimed yet.
pub const NO_HEAD: Head = Head {
    extent: NO_EXTENT,
    beat: 0,
    switch: NO_SWITCH,
};

/// The head that the first claim puts: an empty journal.
pub const FIRST_HEAD: Head = Head {
    extent: Extent {
        generation: Generation {
            epoch: 1,
            attempt: 0,
        },
        chunks: 0,
        end: NO_END,
    },
    beat: 0,
    switch: NO_SWITCH,
};

/// Whether two log ends are one.
fn is_end(end: LogEnd, other: LogEnd) -> bool
    ensures { result ≡ is_end end other }
{
    end.position == other.position && end.sum == other.sum && end.count == other.count
}

impl Generation {
    /// Whether this is that generation.
    pub fn is(self, other: Generation) -> bool
        ensures { result ≡ is_generation self other }
    {
        self.epoch == other.epoch && self.attempt == other.attempt
    }

    /// Whether it was named before that one.
    pub fn is_earlier(self, other: Generation) -> bool
        ensures { result ≡ is_earlier self other }
    {
        self.epoch < other.epoch || (self.epoch == other.epoch && self.attempt < other.attempt)
    }

    /// The name of an owner's next generation, by the latest that it made, or found in the head. `None` where that one
    /// is of a later owner, or names are used up.
    pub fn next(self, owner: Owner) -> Option<Generation>
        ensures value { result ≡ next_generation self owner }
        ensures later { IfSome result (λ next. is_earlier self next ≡ true) }
    {
        if self.epoch < owner.epoch {
            return Some(Generation {
                epoch: owner.epoch,
                attempt: 0,
            });
        }
        if self.epoch == owner.epoch && self.attempt < MOST_COUNT {
            return Some(Generation {
                epoch: self.epoch,
                attempt: self.attempt + 1,
            });
        }
        None
    }
}

impl Extent {
    /// Whether this is that extent.
    pub fn is(self, other: Extent) -> bool
        ensures { result ≡ is_extent self other }
    {
        self.generation.is(other.generation)
            && self.chunks == other.chunks
            && is_end(self.end, other.end)
    }
}

impl Switch {
    /// Whether this is that switch.
    pub fn is(self, other: Switch) -> bool
        ensures { result ≡ is_switch self other }
    {
        self.from.is(other.from) && self.chunks == other.chunks && is_end(self.end, other.end)
    }
}

impl Head {
    /// Whether this is that head.
    pub fn is(self, other: Head) -> bool
        ensures { result ≡ is_head self other }
    {
        self.extent.is(other.extent) && self.beat == other.beat && self.switch.is(other.switch)
    }

    /// Whether it comes before that one: by generation, then by chunks, then by beats.
    pub fn is_before(self, other: Head) -> bool
        ensures { result ≡ is_before self other }
    {
        let (mine, others) = (self.extent, other.extent);
        mine.generation.is_earlier(others.generation)
            || (mine.generation.is(others.generation)
                && (mine.chunks < others.chunks
                    || (mine.chunks == others.chunks && self.beat < other.beat)))
    }
}
