//! Laws of publications. Each function's contract is the law; the functions do nothing.
ghost use Rattle.mds_catalog.specs.Catalogue.{publications_of};
ghost use Rattle.mds_catalog.specs.Laws.{AreLawful, FoldKeepsLawful, FoldGoesOn, StaysPublished, StaysOver};

use crate::catalogue::Catalogue;

/// What a catalogue has published is lawful, each publication after those before it.
pub fn published_lawfully(catalogue: &Catalogue)
    ensures { AreLawful (publications_of catalogue.now) }
{}

/// The fold of a list of publications, each lawful after those before it, is that list.
pub fn fold_keeps_lawful()
    ensures { FoldKeepsLawful }
{}

/// The fold of a list with one more publication is what `Catalogue::absorb` at Ok and `Catalogue::adopt` make of the
/// fold of the list.
pub fn fold_goes_on()
    ensures { FoldGoesOn }
{}

/// What is published stays published, with its moment (MDS 2.0 Policy: immutability).
pub fn stays_published()
    ensures { StaysPublished }
{}

/// A policy that is superseded or withdrawn at a moment is so at every later one, whatever is published afterwards.
pub fn stays_over()
    ensures { StaysOver }
{}
