//! Tests of a register: two owners, one after another, whose transactions and answers are worked out by hand.
use journal_file::LogEnd;
use journal_register::{
    Answer, ChunkKey, Extent, FIRST_HEAD, Generation, Head, Look, NO_HEAD, NOBODY, Outcome, Owner,
    Switch, Transaction, may_claim,
};
use std::process::Abort;

/// The owner that the first claim makes.
const FIRST: Owner = Owner { epoch: 1, nonce: 7 };

/// The owner that claims the register from it.
const SECOND: Owner = Owner { epoch: 2, nonce: 9 };

/// The generation that the first owner makes while it serves the first one.
const SHORTER: Generation = Generation {
    epoch: 1,
    attempt: 1,
};

/// Where the journal ends behind one chunk.
const ONE_END: LogEnd = LogEnd {
    position: 310,
    sum: 5,
    count: 2,
};

/// The generation that the first owner begins with.
const FIRST_GENERATION: Generation = Generation {
    epoch: 1,
    attempt: 0,
};

/// How far it reaches behind that chunk.
const ONE_EXTENT: Extent = Extent {
    generation: FIRST_GENERATION,
    chunks: 1,
    end: ONE_END,
};

/// The head behind that chunk.
const ONE_CHUNK: Head = Head {
    extent: ONE_EXTENT,
    beat: 0,
    switch: Switch {
        from: Extent {
            generation: Generation {
                epoch: 0,
                attempt: 0,
            },
            chunks: 0,
            end: LogEnd {
                position: 0,
                sum: 0,
                count: 0,
            },
        },
        chunks: 0,
        end: LogEnd {
            position: 0,
            sum: 0,
            count: 0,
        },
    },
};

/// The same after one beat.
const BEATEN: Head = Head {
    beat: 1,
    ..ONE_CHUNK
};

/// Where the shorter generation ends.
const SHORTER_END: LogEnd = LogEnd {
    position: 120,
    sum: 8,
    count: 2,
};

/// How far the shorter generation was made.
const SHORTER_EXTENT: Extent = Extent {
    generation: SHORTER,
    chunks: 3,
    end: SHORTER_END,
};

/// The head behind the switch to the shorter generation.
const SWITCHED: Head = Head {
    extent: SHORTER_EXTENT,
    beat: 0,
    switch: Switch {
        from: ONE_EXTENT,
        chunks: 3,
        end: SHORTER_END,
    },
};

/// What a transaction of the first owner has that compares nothing else, and writes nothing.
const BY_FIRST: Transaction = Transaction {
    owner: FIRST,
    head: None,
    new_owner: None,
    new_head: None,
    chunk: None,
    deleted: None,
};

/// The claim of a register that nobody has.
const FIRST_CLAIM: Transaction = Transaction {
    owner: NOBODY,
    head: Some(NO_HEAD),
    new_owner: Some(FIRST),
    new_head: Some(FIRST_HEAD),
    ..BY_FIRST
};

/// The claim of a register that the first owner has.
const SECOND_CLAIM: Transaction = Transaction {
    new_owner: Some(SECOND),
    ..BY_FIRST
};

/// The last owner that may be.
const LAST: Owner = Owner {
    epoch: u64::MAX,
    nonce: 1,
};

/// The append of a first chunk, by the first owner.
const APPEND: Transaction = Transaction {
    head: Some(FIRST_HEAD),
    new_head: Some(ONE_CHUNK),
    chunk: Some(ChunkKey {
        generation: FIRST_GENERATION,
        index: 0,
    }),
    ..BY_FIRST
};

/// Checks that a transaction is made, and is this one.
fn expect_made(rt: &impl Abort, made: Option<Transaction>, wanted: Transaction) {
    assert!(rt; made == Some(wanted));
}

#[test]
fn first_claim_begins_the_register(rt: HostRuntime) {
    expect_made(&rt, Transaction::claim(NOBODY, 7), FIRST_CLAIM);
}

#[test]
fn next_claim_leaves_the_head(rt: HostRuntime) {
    expect_made(&rt, Transaction::claim(FIRST, 9), SECOND_CLAIM);
    assert!(rt; Transaction::claim(LAST, 9).is_none());
}

#[test]
fn append_moves_the_head(rt: HostRuntime) {
    let append = Transaction::append(FIRST, FIRST_HEAD, 0, ONE_END);
    expect_made(&rt, append, APPEND);
    assert!(rt; FIRST_HEAD.is_before(ONE_CHUNK) && !ONE_CHUNK.is_before(FIRST_HEAD));
}

/// The index of the chunk that a transaction puts, and how many chunks stand behind it where it moves the head.
fn chunks_of(transaction: Option<Transaction>) -> (Option<u64>, Option<u64>) {
    match transaction {
        Some(
            Transaction {
                chunk: Some(key),
                new_head: Some(head),
                ..
            },
        ) => (Some(key.index), Some(head.extent.chunks)),
        Some(
            Transaction {
                chunk: Some(key),
                new_head: None,
                ..
            },
        ) => (Some(key.index), None),
        _ => (None, None),
    }
}

// A group of three chunks behind one that is there: two are put behind the head, which the last one moves.
#[test]
fn group_of_chunks_ends_with_its_head(rt: HostRuntime) {
    let first = Transaction::put_behind(FIRST, ONE_CHUNK, 0);
    assert!(rt; chunks_of(first) == (Some(1), None));
    let second = Transaction::put_behind(FIRST, ONE_CHUNK, 1);
    assert!(rt; chunks_of(second) == (Some(2), None));
    let last = Transaction::append(FIRST, ONE_CHUNK, 2, ONE_END);
    assert!(rt; chunks_of(last) == (Some(3), Some(4)));
    assert!(rt; Transaction::append(FIRST, ONE_CHUNK, u64::MAX, ONE_END).is_none());
}

/// The beat of the first owner behind one chunk.
const BEAT: Transaction = Transaction {
    head: Some(ONE_CHUNK),
    new_head: Some(BEATEN),
    ..BY_FIRST
};

#[test]
fn beat_counts(rt: HostRuntime) {
    expect_made(&rt, Transaction::beat(FIRST, ONE_CHUNK), BEAT);
}

/// The first owner puts the third chunk of the shorter generation.
const STAGE: Transaction = Transaction {
    chunk: Some(ChunkKey {
        generation: SHORTER,
        index: 2,
    }),
    ..BY_FIRST
};

/// The first owner moves the head to the shorter generation.
const SWITCH: Transaction = Transaction {
    head: Some(ONE_CHUNK),
    new_head: Some(SWITCHED),
    ..BY_FIRST
};

/// The first owner removes the generation that it left.
const REMOVAL: Transaction = Transaction {
    head: Some(SWITCHED),
    deleted: Some(FIRST_GENERATION),
    ..BY_FIRST
};

#[test]
fn shorter_generation_takes_the_place(rt: HostRuntime) {
    expect_made(&rt, Transaction::stage(FIRST, ONE_CHUNK, SHORTER, 2), STAGE);
    let switch = Transaction::switch(FIRST, ONE_CHUNK, SHORTER_EXTENT);
    expect_made(&rt, switch, SWITCH);
    assert!(rt; ONE_CHUNK.is_before(SWITCHED));
    let removal = Transaction::remove(FIRST, SWITCHED, FIRST_GENERATION);
    expect_made(&rt, removal, REMOVAL);
}

#[test]
fn other_generations_are_refused(rt: HostRuntime) {
    assert!(rt;
        Transaction::stage(FIRST, ONE_CHUNK, FIRST_GENERATION, 0).is_none()
            && Transaction::stage(SECOND, ONE_CHUNK, SHORTER, 0).is_none()
    );
    assert!(rt;
        Transaction::switch(FIRST, ONE_CHUNK, ONE_EXTENT).is_none()
            && Transaction::switch(SECOND, ONE_CHUNK, SHORTER_EXTENT).is_none()
    );
    assert!(rt; Transaction::remove(FIRST, ONE_CHUNK, FIRST_GENERATION).is_none());
}

#[test]
fn names_of_generations_are_new(rt: HostRuntime) {
    assert!(rt; FIRST_GENERATION.next(FIRST) == Some(SHORTER));
    let next = SHORTER.next(SECOND).expect(&rt, "a generation");
    assert!(rt; next.epoch == 2 && next.attempt == 0);
    assert!(rt; SHORTER.is_earlier(next) && !next.is_earlier(SHORTER));
    assert!(rt; next.next(FIRST).is_none());
}

#[test]
fn same_values_are_one(rt: HostRuntime) {
    assert!(rt; FIRST.is(FIRST) && !FIRST.is(SECOND));
    assert!(rt; SHORTER.is(SHORTER) && !SHORTER.is(FIRST_GENERATION));
    assert!(rt; SHORTER_EXTENT.is(SHORTER_EXTENT) && !SHORTER_EXTENT.is(ONE_EXTENT));
    assert!(rt; ONE_CHUNK.switch.is(FIRST_HEAD.switch));
    assert!(rt; ONE_CHUNK.is(ONE_CHUNK) && !ONE_CHUNK.is(BEATEN));
}

/// What is known of the append where it failed, and this was found.
fn append_outcome(owner: Owner, head: Head) -> Outcome {
    APPEND.outcome(Answer::Failed(owner, head))
}

#[test]
fn answers_to_an_append(rt: HostRuntime) {
    assert!(rt; APPEND.outcome(Answer::Succeeded) == Outcome::Applied);
    assert!(rt; APPEND.outcome(Answer::Missing) == Outcome::Unknown);
    assert!(rt; append_outcome(FIRST, ONE_CHUNK) == Outcome::Applied);
    assert!(rt; append_outcome(FIRST, NO_HEAD) == Outcome::Elsewhere);
    assert!(rt; append_outcome(SECOND, ONE_CHUNK) == Outcome::Overtaken);
    assert!(rt; append_outcome(SECOND, FIRST_HEAD) == Outcome::Overtaken);
}

/// What is known of the second claim where it failed, and this owner was found.
fn claim_outcome(owner: Owner) -> Outcome {
    SECOND_CLAIM.outcome(Answer::Failed(owner, ONE_CHUNK))
}

#[test]
fn answers_to_a_claim(rt: HostRuntime) {
    let other = Owner {
        epoch: 2,
        nonce: 10,
    };
    assert!(rt; claim_outcome(SECOND) == Outcome::Applied);
    assert!(rt; claim_outcome(other) == Outcome::Overtaken);
    assert!(rt; SECOND_CLAIM.outcome(Answer::Missing) == Outcome::Unknown);
}

#[test]
fn standby_waits(rt: HostRuntime) {
    let handed_over = Owner { epoch: 2, nonce: 0 };
    assert!(rt; may_claim(NOBODY, 0, 5_000));
    assert!(rt; may_claim(handed_over, 0, 5_000));
    assert!(rt; !may_claim(FIRST, 4_999, 5_000));
    assert!(rt; may_claim(FIRST, 5_000, 5_000));
}

/// A look at the register of the first owner.
const LOOK: Look = Look {
    cluster: 3,
    revision: 8,
    owner: FIRST,
    head: ONE_CHUNK,
};

/// A later one, of the second owner.
const LATER: Look = Look {
    revision: 9,
    owner: SECOND,
    ..LOOK
};

/// A look at another cluster.
const RESTORED: Look = Look { cluster: 4, ..LOOK };

/// A later look that shows less.
const LESS: Look = Look {
    head: FIRST_HEAD,
    ..LATER
};

#[test]
fn looks_go_on(rt: HostRuntime) {
    assert!(rt; LOOK.confirms(FIRST) && !LATER.confirms(FIRST));
    assert!(rt; LOOK.may_precede(&LOOK) && LOOK.may_precede(&LATER));
    assert!(rt; !LATER.may_precede(&LOOK));
    assert!(rt; !LOOK.may_precede(&RESTORED) && !LOOK.may_precede(&LESS));
}
