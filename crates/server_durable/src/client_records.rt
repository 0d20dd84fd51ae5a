//! What the author knows of its own records in the log.
ghost use Rattle.std.specs.Prelude.{◌≡◌, []};
ghost use Rattle.mds_request.specs.declared.config.Actor.TheVariants.{Author};
ghost use Rattle.server_admission.specs.Actor.{index_of};
ghost use Rattle.server_durable.specs.Owners.{OwnsRecords, ReadsClients};

use journal_commit::{LogName, LogPosition, OwnRecords};
use journal_file::Log;
use mds_request::Actor;
use server_admission::index_of;
use server_state::HallName;
use std::marker::PhantomData;

/// The author's own records in the log that `N` names, by the configuration that `K` names.
#[derive(Drop)]
pub(crate) struct AuthorRecords<K: HallName, N: LogName, L: Log> {
    pub own: OwnRecords<N, L>,
    of: PhantomData<K>,
    ghost owned: { OwnsRecords K.configuration N.client_of Author own.client },
    ghost numbered: { own.client ≡ index_of Author },
}

impl<K: HallName, N: LogName, L: Log> AuthorRecords<K, N, L> {
    /// There are none yet.
    pub(crate) fn new(nothing: &LogPosition<N, L>) -> AuthorRecords<K, N, L>
        requires clients { ReadsClients K.configuration N.client_of }
        requires nothing { nothing.now ≡ [] }
        ensures { result.own.texts ≡ [] }
    {
        AuthorRecords {
            own: OwnRecords::new(index_of(Actor::Author), nothing),
            of: PhantomData,
        }
    }
}
