//! The ray test: the edges of a ring against one position.
ghost use Rattle.std.specs.Prelude.{◌≡◌, ◌≤◌, length, IsNone, IfSome, IsTrue, ◌↔◌};
ghost use Rattle.mds_geometry.specs.Inside.{edges_of_ring, touches, crossings, is_odd};

use crate::edge::{is_crossed, is_on};
use crate::position::Position;

/// Whether the ray from `at` to the east crosses an odd number of the ring's edges; `None` where
/// `at` is on one of them.
pub(crate) fn ray_test(ring: &[Position], at: &Position) -> Option<bool>
    requires { 1 ≤ length ring.now }
    ensures border { IsNone result ↔ IsTrue (touches (edges_of_ring ring.now) at.now) }
    ensures odd { IfSome result (λ odd. odd ≡ is_odd (crossings (edges_of_ring ring.now) at.now)) }
{
    let mut odd = false;
    for (from, to) in ring.iter().zip(&ring[1..]) {
        if is_on(from, to, at) {
            return None;
        }
        if is_crossed(from, to, at) {
            odd = !odd;
        }
    }
    Some(odd)
}
