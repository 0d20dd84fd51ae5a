//! The response cache that all desks of a server and its author's room share.
ghost use Rattle.std.specs.Prelude.{◌≡◌, ◌⊎◌, IfSome, IsSome};
ghost use Rattle.mds_request.specs.Reply.{refused};
ghost use Rattle.mds_request.specs.declared.code.Code.TheVariants.{NoMemory};
ghost use Rattle.mds_desk.specs.CacheKey.{IsBodyOf, IsFound, IsReplyTo};

use crate::answer::SharedReply;
use crate::cache::ResponseCache;
use crate::cache_key::CacheKey;
use bytes::Bytes;
use mds_request::{Code, Reply};
use mds_snapshot::{Note, OpeningName};
use std::alloc::{AllocError, Global};
use std::marker::Model;
use std::sync::{Arc, Mutex, MutexGuard};
use std::thread::yield_now;

/// How many times a locked cache is tried, yielding to other threads after each try, before it is skipped.
const LOCK_TRIES: usize = 4;

/// A reference to one response cache behind a lock. The lock is held only for a look-up or an insertion, never while a
/// body is made, and nobody waits for it: a cache that stays locked is skipped. Contracts see nothing of what is
/// cached.
#[derive(Drop)]
pub struct SharedCache<K: OpeningName> {
    cache: Arc<Mutex<ResponseCache<K>>>,
}

impl<K: OpeningName> Model for SharedCache<K> {
    ghost Value = { Unit {0} };

    ghost view = { λ _. tt };
}

impl<K: OpeningName> SharedCache<K> {
    /// An empty cache for the note's front.
    ///
    /// # Errors
    ///
    /// Out of memory.
    pub fn new(alloc: Global, note: Note<K>) -> Result<SharedCache<K>, AllocError> {
        let cache = Arc::new(alloc, Mutex::new(ResponseCache::new(alloc, note)))?;
        Ok(SharedCache { cache })
    }

    /// Another reference to the cache.
    ///
    /// # Errors
    ///
    /// No further reference could be made.
    pub fn new_ref(&self) -> Result<SharedCache<K>, AllocError> {
        let cache = Arc::try_clone(&self.cache)?;
        Ok(SharedCache { cache })
    }

    /// The locked cache; `None` where another thread holds the lock at each try.
    fn lock_or_skip(&self) -> Option<MutexGuard<'_, ResponseCache<K>>> {
        for _ in 0..LOCK_TRIES {
            if let Some(cache) = self.cache.try_lock() {
                return Some(cache);
            }
            yield_now();
        }
        None
    }

    /// The cached body for a key at the note's front, if there is one. `None` also where the cache stays locked.
    pub fn find(&self, asked: &Option<CacheKey>, note: &Note<K>) -> Option<Bytes>
        ensures { IfSome result (IsFound note.now asked.now) }
    {
        let Some(key) = asked else {
            return None;
        };
        let cache = self.lock_or_skip()?;
        cache.find(key, note)
    }

    /// Empties the cache for a later front, unless it stays locked.
    pub fn advance_to(&self, note: &Note<K>) {
        if let Some(mut cache) = self.lock_or_skip() {
            cache.advance_to(note);
        }
    }

    /// The answer with this reply. The body of a success to a call with a key is cached for the note's front, unless
    /// the cache stays locked.
    ///
    /// Where memory for sharing the body is refused, the answer is 503 `no_memory`.
    pub fn answer(
        &self,
        alloc: Global,
        asked: Option<CacheKey>,
        note: &Note<K>,
        reply: Reply,
    ) -> SharedReply
        requires { IfSome asked (λ key. IsReplyTo note.now key reply) }
        ensures { (result ≡ reply) ⊎ ((result ≡ refused NoMemory) × IsSome asked) }
    {
        match asked {
            Some(key) if reply.status() == 200 => self.cache_success(alloc, key, note, reply),
            _ => SharedReply::from(reply),
        }
    }

    /// The answer with this success, whose body is cached.
    fn cache_success(
        &self,
        alloc: Global,
        key: CacheKey,
        note: &Note<K>,
        reply: Reply,
    ) -> SharedReply
        requires success { reply.status ≡ 200 }
        requires body { IsBodyOf note.now key reply.body }
        ensures { (result ≡ reply) ⊎ (result ≡ refused NoMemory) }
    {
        let Ok(body) = SharedReply::from(reply).into_bytes(alloc) else {
            return SharedReply::from(Code::NoMemory);
        };
        if let Ok(share) = body.clone() {
            self.store_body(note, key, share);
        }
        SharedReply::from_cached(body)
    }

    /// Caches a body of the note's front, unless the cache stays locked.
    fn store_body(&self, note: &Note<K>, key: CacheKey, body: Bytes)
        requires { IsBodyOf note.now key body }
    {
        if let Some(mut cache) = self.lock_or_skip() {
            cache.store_body(note, key, body);
        }
    }
}
