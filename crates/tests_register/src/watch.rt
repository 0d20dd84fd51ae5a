//! Tests of when a standby claims a register and when an owner beats, by hand.
use journal_register::{FIRST_HEAD, Head, Look, Owner, Transaction};
use journal_remote::{Tenure, Watch, is_beat_due};

/// The owner of the register.
const FIRST: Owner = Owner { epoch: 1, nonce: 7 };

/// What a look shows at a revision, with so many beats.
fn look(revision: u64, owner: Owner, beat: u64) -> Look {
    Look {
        cluster: 3,
        revision,
        owner,
        head: Head { beat, ..FIRST_HEAD },
    }
}

/// A standby that looked first at 10,000 ms.
fn watch() -> Watch {
    Watch {
        look: look(5, FIRST, 0),
        since: 10_000,
    }
}

#[test]
fn beats_show_that_an_owner_lives(rt: HostRuntime) {
    let same = watch()
        .after(look(5, FIRST, 0), 12_000)
        .expect(&rt, "a watch");
    assert!(rt; same.since == 10_000);
    let beaten = same.after(look(6, FIRST, 1), 13_000).expect(&rt, "a watch");
    assert!(rt; beaten.since == 13_000 && beaten.look.revision == 6);
    let next = Owner { epoch: 2, nonce: 9 };
    let claimed = beaten
        .after(look(7, next, 1), 14_000)
        .expect(&rt, "a watch");
    assert!(rt; claimed.since == 14_000);
}

#[test]
fn register_that_went_back_is_not_watched(rt: HostRuntime) {
    assert!(rt; watch().after(look(4, FIRST, 0), 12_000).is_none());
    let restored = Look {
        cluster: 4,
        ..look(6, FIRST, 0)
    };
    assert!(rt; watch().after(restored, 12_000).is_none());
    let earlier = Owner { epoch: 0, nonce: 0 };
    assert!(rt; watch().after(look(6, earlier, 0), 12_000).is_none());
}

#[test]
fn standby_claims_from_a_silent_owner(rt: HostRuntime) {
    let followed = FIRST_HEAD.extent;
    assert!(rt; !watch().is_claimable(followed, 14_999, 5_000, false));
    assert!(rt; watch().is_claimable(followed, 15_000, 5_000, false));
    assert!(rt; watch().is_claimable(followed, 10_000, 5_000, true));
    assert!(rt; !watch().is_claimable(followed, 9_000, 5_000, false));
    let mut behind = followed;
    behind.chunks = 1;
    assert!(rt; !watch().is_claimable(behind, 15_000, 5_000, true));
    let handed = Owner { epoch: 2, nonce: 0 };
    let watch = Watch {
        look: look(6, handed, 0),
        since: 10_000,
    };
    assert!(rt; watch.is_claimable(followed, 10_000, 5_000, false));
}

#[test]
fn claim_is_of_the_next_epoch(rt: HostRuntime) {
    assert!(rt; watch().claim(0).is_none());
    let claim = watch().claim(9).expect(&rt, "a claim");
    let next = Owner { epoch: 2, nonce: 9 };
    assert!(rt; claim.owner == FIRST && claim.new_owner == Some(next));
    let tenure = Tenure::of_claim(&claim, &look(6, next, 3)).expect(&rt, "a tenure");
    assert!(rt; tenure.owner == next && tenure.head.beat == 3);
    let other = Owner { epoch: 2, nonce: 8 };
    assert!(rt; Tenure::of_claim(&claim, &look(6, other, 3)).is_none());
    assert!(rt; Tenure::of_claim(&claim, &look(5, FIRST, 3)).is_none());
}

#[test]
fn idle_owner_beats(rt: HostRuntime) {
    assert!(rt; !is_beat_due(10_000, 10_999, 1_000));
    assert!(rt; is_beat_due(10_000, 11_000, 1_000));
    assert!(rt; !is_beat_due(10_000, 9_000, 1_000));
    let tenure = Tenure {
        owner: FIRST,
        head: FIRST_HEAD,
    };
    let beat: Transaction = tenure.beat().expect(&rt, "a beat");
    let next = Head {
        beat: 1,
        ..FIRST_HEAD
    };
    assert!(rt; beat.head == Some(FIRST_HEAD) && beat.new_head == Some(next));
}
