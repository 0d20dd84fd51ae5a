//! Opening: makes the two copies, the publisher and its panes.
ghost use Rattle.std.specs.Prelude.{◌≡◌, ◌≤◌, [], replicate, true, IfOk};
ghost use Rattle.mds_snapshot.specs.declared.opening.TheConstants.{READER_PLACES};
ghost use Rattle.mds_snapshot.specs.Opening.{book_of};

use crate::blank::Blank;
use crate::history::OpeningName;
use crate::pane::Pane;
use crate::publisher::{Copies, Publisher};
use crate::snapshot_copy::SnapshotCopy;
use std::alloc::Global;
use std::sync::Wait;

/// The most panes of one opening.
pub const READER_PLACES: usize = 64;

/// Why the opening failed.
#[derive(Clone, Copy, Debug, PartialEq, Eq)]
pub enum OpenFault {
    /// Out of memory.
    NoMemory,
    /// There is no slot for a further reader.
    NoPlace,
}

/// A publisher of the empty list.
#[tactic(auto, using(mds_catalog::proofs::Lawful::lawful_none))]
fn publisher<K: OpeningName>(alloc: Global, blank: Blank) -> Result<Publisher<K>, OpenFault>
    requires name { book_of blank ≡ K.book }
    ensures { IfOk result (λ p. p ≡ record { publications = []; is_open = true }) }
{
    let Blank {
        start,
        first,
        second,
        own,
    } = blank;
    let (ledger, front) = start.with_name::<K>();
    let trail = front.trail();
    let first = SnapshotCopy {
        catalogue: first,
        trail: trail.again(),
    };
    let second = SnapshotCopy {
        catalogue: second,
        trail,
    };
    match Copies::<K>::new(alloc, first, second, READER_PLACES) {
        Ok(writer) => Ok(Publisher::over(writer, ledger, front, own)),
        Err(_) => Err(OpenFault::NoMemory),
    }
}

/// `n` panes that have seen nothing.
fn panes<K: OpeningName>(
    alloc: Global,
    publisher: &Publisher<K>,
    n: usize,
) -> Result<Vec<Pane<K>>, OpenFault>
    requires { publisher.now.publications ≡ [] }
    ensures { IfOk result (λ v. v.items ≡ replicate n []) }
{
    let Ok(mut panes) = Vec::with_capacity(alloc, n) else {
        return Err(OpenFault::NoMemory);
    };
    for _ in 0..n {
        let Some(pane) = publisher.pane() else {
            return Err(OpenFault::NoPlace);
        };
        panes.push_reserved(pane);
    }
    Ok(panes)
}

/// Opens what `prepare` made, under the name K: a publisher of the empty list, and `n` panes that have seen nothing.
///
/// # Errors
///
/// Out of memory, or there is no slot for a further reader.
pub fn open<K: OpeningName, R: Wait>(
    rt: &R,
    alloc: Global,
    blank: Blank,
    n: usize,
) -> Result<(Publisher<K>, Vec<Pane<K>>), OpenFault>
    requires name { book_of blank ≡ K.book }
    requires places { n ≤ READER_PLACES }
    ensures { IfOk result (λ r. (r.0 ≡ record { publications = []; is_open = true }) × (r.1.items ≡ replicate n [])) }
{
    let (publisher, rested) = publisher::<K>(alloc, blank)?.warm_up(rt);
    let panes = match rested {
        Ok(()) => panes(alloc, &publisher, n),
        Err(_) => Err(OpenFault::NoMemory),
    };
    match panes {
        Ok(panes) => Ok((publisher, panes)),
        Err(fault) => {
            publisher.finish(rt);
            Err(fault)
        }
    }
}
