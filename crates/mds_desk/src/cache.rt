//! The response cache: bodies of one front.
ghost use Rattle.std.specs.Prelude.{◌≡◌, ◌⊎◌, IfSome};
ghost use mathlib.Core.List.{IsPrefix};
ghost use Rattle.mds_desk.specs.CacheKey.{IsBodyOf};

use crate::cache_key::CacheKey;
use bytes::Bytes;
use mds_snapshot::{Note, OpeningName};
use std::alloc::Global;
use std::marker::Model;

/// A cached body with its key.
#[derive(Drop)]
pub(crate) struct CachedBody {
    key: CacheKey,
    body: Bytes,
}

/// A response cache: bodies of one front of what is published, at most one for each key. Contracts see the front.
#[derive(Drop)]
pub struct ResponseCache<K: OpeningName> {
    note: Note<K>,
    entries: Vec<CachedBody>,
}

impl<K: OpeningName> Model for ResponseCache<K> {
    ghost use Rattle.std.specs.Prelude.{List};
    ghost use Rattle.mds_catalog.specs.Publication.{Publication};
    ghost use Rattle.mds_snapshot.specs.Codes.{coded_publications};

    ghost Value = { List Publication };

    ghost coded = { coded_publications };

    ghost use Rattle.mds_desk.specs.Cache.{AreBodies};

    ghost view = { λ s. s.note };

    ghost invariant = { λ s. AreBodies s.note s.entries.items };
}

impl<K: OpeningName> ResponseCache<K> {
    /// An empty cache for the note's front.
    pub fn new(alloc: Global, note: Note<K>) -> ResponseCache<K>
        ensures { result ≡ note }
    {
        ResponseCache {
            note,
            entries: Vec::new(alloc),
        }
    }

    /// A reference to the body cached under a key, where the cache is for the note's front. `None` also where no
    /// further reference could be made.
    pub fn find(&self, key: &CacheKey, note: &Note<K>) -> Option<Bytes>
        ensures { IfSome result (IsBodyOf note.now key.now) }
    {
        if !self.note.is_of_list(note) {
            return None;
        }
        for entry in &self.entries {
            if entry.key == *key {
                return entry.body.clone().ok();
            }
        }
        None
    }

    /// Empties the cache for a later front; a front that the cache's own front covers changes nothing.
    pub fn advance_to(&mut self, note: &Note<K>)
        ensures kept { IsPrefix self.old self.new }
        ensures told { IsPrefix note.now self.new }
        ensures one { (self.new ≡ self.old) ⊎ (self.new ≡ note.now) }
    {
        if !self.note.covers(note) {
            self.entries.clear();
            self.note = note.again();
        }
    }

    /// Caches a body of the note's front: a later front empties the cache first, and a body of an earlier one isn't
    /// cached, nor a second one under a key. Where memory for it is refused, it isn't cached either.
    pub fn store_body(&mut self, note: &Note<K>, key: CacheKey, body: Bytes)
        requires { IsBodyOf note.now key body }
        ensures kept { IsPrefix self.old self.new }
        ensures told { IsPrefix note.now self.new }
        ensures one { (self.new ≡ self.old) ⊎ (self.new ≡ note.now) }
    {
        self.advance_to(note);
        if self.note.is_of_list(note) && !self.has(&key) {
            let _ = self.entries.push(CachedBody { key, body });
        }
    }

    /// Whether a body is cached under a key.
    fn has(&self, key: &CacheKey) -> bool {
        self.entries.iter().any(|entry| entry.key == *key)
    }
}
