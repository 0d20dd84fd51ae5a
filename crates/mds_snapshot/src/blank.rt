//! The memory for an opening, allocated before it.
ghost use Rattle.std.specs.Prelude.{◌≡◌, [], IfErr};
ghost use Rattle.mds_catalog.specs.Catalogue.{publications_of};
ghost use Rattle.std.specs.Coded.{Coded-set};
ghost use Rattle.mds_snapshot.specs.Codes.{coded_publications};
ghost use Rattle.mds_snapshot.specs.declared.opening.OpenFault.TheVariants.{NoMemory};

use crate::history::NewHistory;
use crate::opening::OpenFault;
use mds_catalog::Catalogue;
use std::alloc::Global;

/// Two copies of an empty catalogue, the publisher's own one and an empty history, not yet opened under a name.
#[derive(Drop)]
pub struct Blank {
    pub(crate) start: NewHistory,
    pub(crate) first: Catalogue,
    pub(crate) second: Catalogue,
    pub(crate) own: Catalogue,
    ghost first_is: { publications_of first ≡ [] } by { Coded-set coded_publications (publications_of first) [] },
    ghost second_is: { publications_of second ≡ [] } by { Coded-set coded_publications (publications_of second) [] },
    ghost own_is: { publications_of own ≡ [] } by { Coded-set coded_publications (publications_of own) [] },
}

/// Allocates what `open` takes: three empty catalogues with room for all publications.
///
/// # Errors
///
/// Out of memory.
pub fn prepare(alloc: Global) -> Result<Blank, OpenFault>
    ensures { IfErr result (λ fault. fault ≡ NoMemory) }
{
    let (Ok(first), Ok(second), Ok(own)) = (
        Catalogue::with_room(alloc),
        Catalogue::with_room(alloc),
        Catalogue::with_room(alloc),
    ) else {
        return Err(OpenFault::NoMemory);
    };
    Ok(Blank {
        start: NewHistory::new(),
        first,
        second,
        own,
    })
}
