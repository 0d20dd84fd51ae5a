//! Tests of how much room a journal may take, by hand arithmetic.
use journal_file::LogEnd;
use journal_register::{Extent, FIRST_HEAD, Head, Switch};
use journal_remote::{LogBudget, LogUsage};

/// A head at the position 400, whose generation took the place of one of 300 bytes.
fn moved_head() -> Head {
    let end = LogEnd::of_empty_log();
    let from = Extent {
        end: LogEnd {
            position: 300,
            ..end
        },
        ..FIRST_HEAD.extent
    };
    Head {
        extent: Extent {
            end: LogEnd {
                position: 400,
                ..end
            },
            ..FIRST_HEAD.extent
        },
        switch: Switch {
            from,
            ..FIRST_HEAD.switch
        },
        ..FIRST_HEAD
    }
}

#[test]
fn budget_is_half_of_the_quota_at_most(rt: HostRuntime) {
    assert!(rt; LogBudget::within(1_000, 2_000) == Some(LogBudget { most: 1_000 }));
    assert!(rt; LogBudget::within(1_001, 2_001).is_none());
    assert!(rt; LogBudget::within(0, 0) == Some(LogBudget { most: 0 }));
    assert!(rt; LogBudget::within(u64::MAX, u64::MAX).is_none());
}

#[test]
fn room_is_what_all_generations_leave(rt: HostRuntime) {
    let budget = LogBudget { most: 1_000 };
    // 400 + 300 + 100 + 100 are 900
    let usage = LogUsage::of(&moved_head(), false, 100, 100);
    assert!(rt; budget.has_room(&usage, 100));
    assert!(rt; !budget.has_room(&usage, 101));
    // without the 300
    let usage = LogUsage::of(&moved_head(), true, 100, 100);
    assert!(rt; budget.has_room(&usage, 400));
    assert!(rt; !budget.has_room(&usage, 401));
}

#[test]
fn full_numbers_leave_no_room(rt: HostRuntime) {
    let budget = LogBudget { most: u64::MAX };
    let usage = LogUsage::of(&moved_head(), false, u64::MAX - 700, 0);
    assert!(rt; budget.has_room(&usage, 0));
    assert!(rt; !budget.has_room(&usage, 1));
    assert!(rt; !budget.has_room(&usage, u64::MAX));
}
