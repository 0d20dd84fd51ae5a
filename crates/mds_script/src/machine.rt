//! The machine behind a replay.
use mds_request::{Config, Reply, Request};
use std::alloc::{AllocError, Global};

/// A machine that is made from a configuration, and answers requests one after another.
pub trait Machine: Drop {
    ghost use Rattle.std.specs.Prelude.{IfOk, IsTrue};
    ghost use Rattle.mds_request.specs.Configuration.{Configuration, configuration};
    ghost use Rattle.mds_request.specs.Request.{Request as Asked, request_of};
    ghost use Rattle.mds_request.specs.Reply.{Reply as Answer, is_line};

    /// This is a new machine of the configuration.
    ghost begins: { Configuration → Self → Type 0 };

    /// The machine may answer this request with this reply, and go on to this state.
    ghost step: { Self → Asked → Answer → Self → Type 0 };

    /// A new machine of the configuration. The only error is out of memory.
    fn begin(alloc: Global, config: Config) -> Result<Self, AllocError>
    where
        Self: Sized,
        ensures { IfOk result (begins (configuration config)) };

    /// The answer to a request.
    fn answer(&mut self, request: &Request<'_>) -> Reply
        ensures { step self.old (request_of request.now) result self.new };

    /// Some reply of one line is possible at any time.
    ghost total: { (old : Self) (request : Asked) → (reply : Answer) × (new : Self) × step old request reply new × IsTrue (is_line reply.body) };
}
