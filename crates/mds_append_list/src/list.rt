//! The list, its word, and the prefixes of it that were seen.
ghost use Rattle.std.specs.Prelude.{◌≡◌, ◌+◌, ◌<◌, ◌^◌, ◌++◌, ◌∷◌, [], length, false, true};
ghost use mathlib.Core.List.{IsPrefix};
ghost use Rattle.mds_append_list.specs.AppendList.{head_of};

use logbook::{Gain, Offer, Plain, Play, Rule, Seen, Start, Word};

/// The invariant of the book in which a list is recorded.
pub struct ListRule;

impl<E> Rule<E, u64> for ListRule {
    ghost use Rattle.std.specs.Prelude.{[]};
    ghost use base.Fml.{ftrue};
    ghost use Rattle.mds_append_list.specs.AppendList.{IsKept};

    ghost holds = { λ cells log. IsKept cells log };

    ghost first = { [] };

    ghost hinted = { λ n log. Unit {0} };

    ghost shows = { λ log. [] };

    ghost keeps = { λ names log. ftrue };

    ghost moves = { λ ask before after answer. Unit {0} };
}

/// Callers trade nothing in a step.
pub struct NoListGain;

impl<E> Gain<E, u64> for NoListGain {
    ghost use base.Fml.{ftrue};

    ghost after = { λ names about answer. ftrue };
}

/// The step that adds an item.
pub struct AddItem;

impl<E> Play<E, u64> for AddItem {
    ghost use Rattle.mds_append_list.specs.AppendList.{Adds};

    ghost then = { Adds };
}

/// The word of a list: its length.
#[derive(Drop)]
pub struct ListHead<E> {
    pub word: Word<E, u64, ListRule>,
}

/// A prefix of the list that was seen, and its length.
#[derive(Drop)]
pub struct ListFront<E> {
    count: u64,
    /// What was seen of the list: the prefix.
    pub seen: Seen<E, u64, ListRule>,
    ghost counted: { count ≡ length seen.log },
}

/// An empty list.
#[derive(Drop)]
pub struct NewList<E> {
    pub head: ListHead<E>,
    pub front: ListFront<E>,
    pub ghost empty: { front.seen.log ≡ [] },
    pub ghost head_is: { head.word ≡ head_of front.seen.book },
}

impl<E> NewList<E> {
    /// Begins a list.
    pub fn new() -> NewList<E> {
        let (seen, mut first, _second) = Seen::open(Start::alone(), 0, 0);
        NewList {
            head: ListHead {
                word: Word::tracked(0, &mut first),
            },
            front: ListFront { count: 0, seen },
        }
    }
}

impl<E> ListFront<E> {
    /// How many items it has.
    pub fn len(&self) -> u64
        ensures { result ≡ length self.now.seen.log }
    {
        self.count
    }

    /// The same prefix.
    pub fn again(&self) -> ListFront<E>
        ensures { result ≡ self.now }
    {
        ListFront {
            count: self.count,
            seen: self.seen.again(),
        }
    }

    /// Whether the other prefix of the same list begins with it, as it does where it isn't shorter.
    pub fn begins(&self, other: &ListFront<E>) -> bool
        requires { other.now.seen.book ≡ self.now.seen.book }
        ensures begins { result ≡ true → IsPrefix self.now.seen.log other.now.seen.log }
        ensures shorter { result ≡ false → length other.now.seen.log < length self.now.seen.log }
    {
        let mut both = self.seen.again();
        both.learn(&other.seen);
        self.count <= other.count
    }

    /// Adds the item that `M` makes of `about` to all that was seen, and returns whether it did. It did not where the
    /// list is longer.
    pub fn extend<X, M: Plain<X, E, u64>>(&mut self, head: &ListHead<E>, about: &X) -> bool
        requires head { head.now.word ≡ head_of self.old.seen.book }
        requires room { length self.old.seen.log < 2 ^ 62 }
        ensures book { self.new.seen.book ≡ self.old.seen.book }
        ensures added { result ≡ true → self.new.seen.log ≡ self.old.seen.log ++ M.ask about.now ∷ [] }
        ensures longer { result ≡ false → length self.old.seen.log < length self.new.seen.log }
    {
        let mut offer: Offer<E, u64, ListRule, NoListGain> = self
            .seen
            .plain::<NoListGain, X, M>(about);
        let mut pen = self.seen.no_pen();
        let count = self.count;
        let found = head
            .word
            .compare_exchange::<AddItem, NoListGain>(
                count,
                count + 1,
                &mut self.seen,
                &mut offer,
                &mut pen,
            );
        self.count = if found == count { count + 1 } else { found };
        found == count
    }
}
