//! Index of the published documents by identifier: where each one is.
ghost use Rattle.std.specs.Prelude.{◌≡◌, ◌+◌, ◌≤◌, ◌<◌, ◌∷◌, [], find, map, length, vec_len, vec_capacity, IfOk, IfErr};
ghost use Rattle.mds_geography.specs.Geography.{geography_document};
ghost use Rattle.mds_catalog.specs.Listed.{Ascends, IsAt, IsGap, Lists, has, spots_from};

use mds_geography::Geography;
use mds_text::Id;
use std::sync::Arc;

/// Where a published document is: its batch, and its index among the batch's documents of its kind.
#[derive(Clone, Copy)]
pub(crate) struct DocumentSpot {
    /// The document's identifier.
    pub(crate) id: Id,
    /// How many batches are before its own.
    pub(crate) batch: usize,
    /// How many of the batch's documents of its kind are before it.
    pub(crate) place: usize,
}

/// The index of the spot with this identifier, or the index at which it would be inserted.
fn place_of(spots: &[DocumentSpot], id: Id) -> Result<usize, usize>
    requires { Ascends (λ s. s.id) spots.now }
    ensures found { IfOk result (IsAt (λ s. s.id) spots.now id) }
    ensures gap { IfErr result (IsGap (λ s. s.id) spots.now id) }
{
    spots.binary_search_by_key(&id, |spot| spot.id)
}

/// Where the document with this identifier is.
pub(crate) fn spot_of(spots: &[DocumentSpot], id: Id) -> Option<DocumentSpot>
    requires { Ascends (λ s. s.id) spots.now }
    ensures { result ≡ find (has (λ s. s.id) id) spots.now }
{
    match place_of(spots, id) {
        Ok(at) => Some(spots[at]),
        Err(_) => None,
    }
}

/// Inserts the spot of a document, unless there is one with its identifier.
fn list_spot(spots: &mut Vec<DocumentSpot>, spot: DocumentSpot)
    requires ascends { Ascends (λ s. s.id) spots.old.items }
    requires room { vec_len spots.old < vec_capacity spots.old }
    ensures listed { Lists (λ s. s.id) spots.old.items spots.new.items (spot ∷ []) }
    ensures capacity { vec_capacity spots.new ≡ vec_capacity spots.old }
{
    if let Err(at) = place_of(spots, spot.id) {
        let _ = spots.insert(at, spot);
    }
}

/// Inserts the spots of the geographies of a batch.
pub(crate) fn list_geographies(
    spots: &mut Vec<DocumentSpot>,
    batch: usize,
    geographies: &[Arc<Geography>],
)
    requires ascends { Ascends (λ s. s.id) spots.old.items }
    requires room { vec_len spots.old + length geographies.now ≤ vec_capacity spots.old }
    ensures listed { Lists (λ s. s.id) spots.old.items spots.new.items
        (spots_from batch 0 (map (λ share. (geography_document share.value).id) geographies.now)) }
    ensures capacity { vec_capacity spots.new ≡ vec_capacity spots.old }
{
    for (place, geography) in geographies.iter().enumerate() {
        let id = geography.id();
        list_spot(spots, DocumentSpot { id, batch, place });
    }
}
