//! Linear rings (RFC 7946, section 3.1.6).
ghost use Rattle.std.specs.Prelude.{◌≡◌, ◌<◌, ◌≤◌, ◌↔◌, Err, Ok, IfOk, IfSome, IsNone, IsTrue, length};
ghost use Rattle.mds_geometry.specs.Inside.{edges_of_ring, touches, crossings, is_odd};
ghost use Rattle.mds_geometry.specs.Ring.{IsRing, IsClosed};

use crate::band::Band;
use crate::blocks::{BLOCKS, bands_of, block_size, ray_test_by_blocks};
use crate::position::Position;
use std::marker::Model;

/// Why a list of positions is not a linear ring.
#[derive(Clone, Copy, PartialEq, Eq, Debug)]
pub enum RingFault {
    /// It has fewer than four positions.
    Short,
    /// Its last position differs from its first.
    Open,
}

/// A linear ring: four or more positions of which the last is the first (RFC 7946, section 3.1.6),
/// in either winding order. It stores the band of latitudes of each block of neighbouring edges.
/// Contracts see the list of its positions.
#[derive(Drop)]
pub struct Ring {
    positions: Vec<Position>,
    block: usize,
    bands: [Band; BLOCKS],
}

impl Model for Ring {
    ghost use Rattle.std.specs.Prelude.{List};
    ghost use Rattle.mds_geometry.specs.Bounds.{IsBanded};
    ghost use Rattle.mds_geometry.specs.declared.position.Position.{Position};

    ghost Value = { List Position };

    ghost view = { λ r. r.positions.items };

    ghost invariant = { λ r. IsBanded r.block r.bands r.positions.items };
}

impl Ring {
    /// The ring of these positions. Allocates nothing.
    ///
    /// # Errors
    ///
    /// `Short` for fewer than four positions; else `Open` where the first and the last differ.
    pub fn new(positions: Vec<Position>) -> Result<Ring, RingFault>
        ensures short { (result ≡ Err RingFault.Short) ↔ (length positions.items < 4) }
        ensures open { (result ≡ Err RingFault.Open) ↔ ((4 ≤ length positions.items) × ¬ IsClosed positions.items) }
        ensures ring { IfOk result (λ r. r ≡ positions.items) }
    {
        if positions.len() < 4 {
            return Err(RingFault::Short);
        }
        let last = positions.len() - 1;
        if positions[0] == positions[last] {
            let block = block_size(&positions);
            let bands = bands_of(&positions, block);
            Ok(Ring {
                positions,
                block,
                bands,
            })
        } else {
            Err(RingFault::Open)
        }
    }

    /// The positions in their order, the closing one last.
    pub fn positions(&self) -> &[Position]
        ensures positions { result.now ≡ self.now }
        ensures ring { IsRing result.now }
    {
        self.positions.as_slice()
    }

    /// Whether the ray from `at` to the east crosses an odd number of the ring's edges; `None` where
    /// `at` is on one of them.
    pub(crate) fn ray_test(&self, at: &Position) -> Option<bool>
        ensures border { IsNone result ↔ IsTrue (touches (edges_of_ring self.now) at.now) }
        ensures odd { IfSome result (λ odd. odd ≡ is_odd (crossings (edges_of_ring self.now) at.now)) }
    {
        ray_test_by_blocks(&self.positions, self.block, &self.bands, at)
    }
}
