//! The index of a client among all clients.
ghost use Rattle.std.specs.Prelude.{◌≡◌};
ghost use Rattle.server_admission.specs.Actor.{index_of};

use mds_request::Actor;

/// The index of a client's queue, its counts and its share: anonymous, the author, and then the
/// operators in the configuration's order.
pub fn index_of(actor: Actor) -> usize
    ensures { result ≡ index_of actor }
{
    match actor {
        Actor::Nobody => 0,
        Actor::Author => 1,
        Actor::Operator(place) => place.saturating_add(2),
    }
}
