//! What a desk shares with the others, and its operator's place.
ghost use Rattle.std.specs.Prelude.{◌≡◌, ◌<◌, length, Some, option_map, slice_get};
ghost use Rattle.mds_request.specs.Configuration.{configuration};

use crate::shared_cache::SharedCache;
use mds_request::{Config, Routes};
use mds_snapshot::OpeningName;
use mds_text::Id;
use std::alloc::Global;
use std::sync::Arc;

/// What a desk shares with the other desks and the author's room, and its operator's place in the
/// configuration.
#[derive(Drop)]
pub(crate) struct DeskContext<K: OpeningName> {
    pub(crate) alloc: Global,
    pub(crate) config: Arc<Config>,
    pub(crate) routes: Arc<Routes>,
    pub(crate) cache: SharedCache<K>,
    pub(crate) place: usize,
    ghost within: { place < length (configuration config.value).operators },
}

impl<K: OpeningName> DeskContext<K> {
    /// The operator's identifier.
    pub(crate) fn operator(&self) -> Id
        ensures { Some result ≡ option_map (λ o. o.id) (slice_get (configuration self.now.config.value).operators self.now.place) }
    {
        self.config.operators()[self.place].id
    }
}
