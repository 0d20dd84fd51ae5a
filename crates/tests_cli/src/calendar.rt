//! Tests of moments: RFC 3339's own examples, and both nights of 2026 on which the clocks of New York are changed.
use cli_calendar::{date_text, day_at, local_text, moment_in, moments_between, utc_text};
use mds_match::Zone;
use mds_text::Moment;
use std::alloc::{AllocError, Global};

/// New York: clocks are set forward on 8 March 2026, and back on 1 November 2026, both at 02:00.
const NEW_YORK: &str = "EST5EDT,M3.2.0,M11.1.0";

fn millis(alloc: Global, text: &str) -> Result<Option<i64>, AllocError> {
    let Ok(zone) = Zone::read(NEW_YORK) else {
        return Ok(None);
    };
    match moment_in(alloc, &zone, text)? {
        Some(at) => Ok(Some(at.get())),
        None => Ok(None),
    }
}

#[test]
fn digits_are_milliseconds(rt: HostRuntime) -> Result<(), AllocError> {
    let alloc = rt.alloc();
    assert!(rt; millis(alloc, "0")? == Some(0));
    assert!(rt; millis(alloc, "1793511000000")? == Some(1_793_511_000_000));
    assert!(rt; millis(alloc, "99999999999999")?.is_none());
    Ok(())
}

// RFC 3339, section 5.8.
#[test]
fn moments_have_offsets(rt: HostRuntime) -> Result<(), AllocError> {
    let alloc = rt.alloc();
    assert!(rt; millis(alloc, "1985-04-12T23:20:50.52Z")? == Some(482_196_050_520));
    assert!(rt; millis(alloc, "1996-12-19T16:39:57-08:00")? == Some(851_042_397_000));
    assert!(rt; millis(alloc, "1937-01-01T12:00:27.87+00:20")?.is_none());
    assert!(rt; millis(alloc, "yesterday")?.is_none());
    Ok(())
}

// Clocks are set forward from 02:00 EST, 07:00 UTC, to 03:00 EDT.
#[test]
fn clocks_set_forward(rt: HostRuntime) -> Result<(), AllocError> {
    let alloc = rt.alloc();
    assert!(rt; millis(alloc, "2026-03-08T01:59:59")? == Some(1_772_953_199_000));
    assert!(rt; millis(alloc, "2026-03-08T02:30")? == Some(1_772_955_000_000));
    assert!(rt; millis(alloc, "2026-03-08T03:00")? == Some(1_772_953_200_000));
    Ok(())
}

// Clocks are set back from 02:00 EDT, 06:00 UTC, to 01:00 EST.
#[test]
fn clocks_set_back(rt: HostRuntime) -> Result<(), AllocError> {
    let alloc = rt.alloc();
    assert!(rt; millis(alloc, "2026-11-01")? == Some(1_793_505_600_000));
    assert!(rt; millis(alloc, "2026-11-01T01:30")? == Some(1_793_511_000_000));
    assert!(rt; millis(alloc, "2026-11-01T02:00")? == Some(1_793_516_400_000));
    Ok(())
}

#[test]
fn texts_of_a_night(rt: HostRuntime) -> Result<(), AllocError> {
    let alloc = rt.alloc();
    let Ok(zone) = Zone::read(NEW_YORK) else {
        assert!(rt; false);
        return Ok(());
    };
    let first = Moment::new(1_793_511_000_000).unwrap();
    let second = Moment::new(1_793_514_600_250).unwrap();
    assert!(rt; utc_text(alloc, first)?.as_slice() == b"2026-11-01T05:30:00Z".as_slice());
    assert!(rt;
        local_text(alloc, &zone, first)?.as_slice() == b"2026-11-01T01:30:00-04:00".as_slice()
    );
    assert!(rt;
        local_text(alloc, &zone, second)?.as_slice() == b"2026-11-01T01:30:00.250-05:00".as_slice()
    );
    assert!(rt; day_at(&zone, first) == 20_761);
    assert!(rt; day_at(&zone, Moment::new(1_793_505_599_999).unwrap()) == 20_760);
    assert!(rt; date_text(alloc, 20_761)?.as_slice() == b"2026-11-01".as_slice());
    Ok(())
}

#[test]
fn moments_end_before_the_last(rt: HostRuntime) -> Result<(), AllocError> {
    let alloc = rt.alloc();
    let from = Moment::new(1_000).unwrap();
    let moments = moments_between(alloc, from, Moment::new(3_001).unwrap(), 1_000)?;
    assert!(rt; moments.len() == 3);
    assert!(rt; moments.last().map(|at| at.get()) == Some(3_000));
    assert!(rt; moments_between(alloc, from, Moment::new(3_000).unwrap(), 1_000)?.len() == 2);
    assert!(rt; moments_between(alloc, from, from, 1_000)?.is_empty());
    Ok(())
}
