//! The value of each copy: a catalogue, with the front of the history that it is the fold of.
use crate::history::{LoggedBatch, UnnamedFront};
use left_right::Absorb;
use mds_catalog::{Batch, Catalogue};
use std::alloc::AllocError;
use std::sync::Arc;

/// An operation on both copies.
#[derive(Drop)]
pub enum CopyOperation {
    /// Changes nothing.
    Rest,
    /// Appends a batch; the front is the one that ends with it.
    Publish(Arc<Batch>, UnnamedFront),
}

/// A catalogue and its front.
#[derive(Drop)]
pub struct SnapshotCopy {
    /// The published documents.
    pub catalogue: Catalogue,
    /// The front that the catalogue is the fold of.
    pub trail: UnnamedFront,
}

impl Absorb<CopyOperation> for SnapshotCopy {
    ghost use Rattle.std.specs.Prelude.{◌≡◌, IsOk, MatchResult};
    ghost use Rattle.mds_catalog.specs.Catalogue.{publications_of};
    ghost use Rattle.mds_snapshot.specs.Copies.{applied};

    // A clause reads an array as a list, of any length.
    type State = ([LoggedBatch; 0], UnnamedFront);

    ghost state = { λ s. (publications_of s.catalogue, s.trail) };

    ghost applied = { applied };

    fn absorb_first(
        &mut self,
        operation: &CopyOperation,
        _other: &SnapshotCopy,
    ) -> Result<(), AllocError> {
        match operation {
            CopyOperation::Rest => Ok(()),
            CopyOperation::Publish(batch, trail) => {
                self.catalogue.absorb(batch)?;
                self.trail = trail.again();
                Ok(())
            }
        }
    }

    fn absorb_second(
        &mut self,
        operation: CopyOperation,
        _other: &SnapshotCopy,
    ) -> Result<(), CopyOperation> {
        match operation {
            CopyOperation::Rest => {}
            CopyOperation::Publish(batch, trail) => {
                self.catalogue.adopt(batch);
                self.trail = trail;
            }
        }
        Ok(())
    }
}
