//! The server's state machine as the machine of a replay.
use crate::machine::Machine;
use mds_request::{Config, Reply, Request};
use mds_verdict::Plain;
use mds_world::World;
use std::alloc::{AllocError, Global};

/// The state machine of the server, which evaluates vehicles one after another.
impl Machine for World<Plain> {
    ghost use Rattle.std.specs.Prelude.{◌≡◌};
    ghost use Rattle.mds_machine.proofs.Replies.{some_reply};
    ghost use Rattle.mds_machine.specs.Step.{Step, new_state};
    ghost use Rattle.mds_world.specs.World.{state_of};

    ghost begins = { λ configuration world. state_of world ≡ new_state configuration };

    ghost step = { λ old request reply new. Step (state_of old) request reply (state_of new) };

    fn begin(alloc: Global, config: Config) -> Result<World<Plain>, AllocError> {
        World::new(alloc, config, Plain)
    }

    fn answer(&mut self, request: &Request<'_>) -> Reply {
        World::answer(self, request)
    }

    ghost total = { λ old request. let r = some_reply (state_of old) request in (r.0, old, r.1, r.2) };
}
