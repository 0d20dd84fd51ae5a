//! A ring's edges, in blocks of neighbouring edges that a test skips by their latitudes.
ghost use Rattle.std.specs.Prelude.{◌≡◌, ◌≤◌, suc, length, take, drop, IsNone, IfSome, IsTrue, ◌↔◌};
ghost use Rattle.mds_geometry.specs.Bounds.{AreIn, AreBanded, edges_of_a_block};
ghost use Rattle.mds_geometry.specs.Inside.{edges_of_ring, touches, crossings, is_odd};

use crate::band::Band;
use crate::position::Position;
use crate::ray::ray_test;

/// The most blocks of a ring.
pub(crate) const BLOCKS: usize = 16;

/// The number of edges of a block: the smallest that makes at most `BLOCKS` blocks.
pub(crate) fn block_size(positions: &[Position]) -> usize
    ensures { result ≡ edges_of_a_block positions.now }
{
    positions.len().saturating_sub(1).div_ceil(BLOCKS)
}

/// The positions of the first block: the ends of its edges.
fn first_block(positions: &[Position], size: usize) -> &[Position]
    ensures { result.now ≡ take (suc size) positions.now }
{
    if size < positions.len() {
        &positions[..=size]
    } else {
        positions
    }
}

/// The positions of the blocks after the first.
fn other_blocks(positions: &[Position], size: usize) -> &[Position]
    ensures { result.now ≡ drop size positions.now }
{
    if size < positions.len() {
        &positions[size..]
    } else {
        &[]
    }
}

/// The band of the latitudes of these positions.
fn band_of(positions: &[Position]) -> Band
    ensures { AreIn result positions.now }
{
    let mut band = Band::none();
    for position in positions {
        band.widen(position.lat);
    }
    band
}

/// The bands of the blocks of this size. The band of a block without edges doesn't matter.
pub(crate) fn bands_of(positions: &[Position], size: usize) -> [Band; BLOCKS]
    ensures { AreBanded size result positions.now }
{
    let mut bands = [Band::none(); BLOCKS];
    let mut rest = positions;
    for place in 0..BLOCKS {
        bands[place] = band_of(first_block(rest, size));
        rest = other_blocks(rest, size);
    }
    bands
}

/// Whether the ray from `at` to the east crosses an odd number of the block's edges; `None` where
/// `at` is on one of them. The block is skipped where its band doesn't hold the latitude.
fn ray_test_of_block(block: &[Position], band: &Band, at: &Position) -> Option<bool>
    requires some { 1 ≤ length block.now }
    requires banded { AreIn band.now block.now }
    ensures border { IsNone result ↔ IsTrue (touches (edges_of_ring block.now) at.now) }
    ensures odd { IfSome result (λ odd. odd ≡ is_odd (crossings (edges_of_ring block.now) at.now)) }
{
    if band.holds(at.lat) {
        ray_test(block, at)
    } else {
        Some(false)
    }
}

/// Whether the ray from `at` to the east crosses an odd number of the ring's edges; `None` where
/// `at` is on one of them. A block is skipped where its band doesn't hold the latitude.
pub(crate) fn ray_test_by_blocks(
    positions: &[Position],
    size: usize,
    bands: &[Band],
    at: &Position,
) -> Option<bool>
    requires { AreBanded size bands.now positions.now }
    ensures border { IsNone result ↔ IsTrue (touches (edges_of_ring positions.now) at.now) }
    ensures odd { IfSome result (λ odd. odd ≡ is_odd (crossings (edges_of_ring positions.now) at.now)) }
{
    let mut odd = false;
    let mut rest = positions;
    for band in bands {
        if rest.is_empty() {
            return Some(odd);
        }
        let Some(crosses) = ray_test_of_block(first_block(rest, size), band, at) else {
            return None;
        };
        odd ^= crosses;
        rest = other_blocks(rest, size);
    }
    if rest.is_empty() {
        return Some(odd);
    }
    let Some(crosses) = ray_test(rest, at) else {
        return None;
    };
    Some(odd ^ crosses)
}
