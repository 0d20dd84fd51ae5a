//! The cache of the public documents.
ghost use Rattle.std.specs.Prelude.{◌≡◌, is_some, IfOk};
ghost use Rattle.server_public.specs.Switch.{is_public};
ghost use Rattle.server_public.specs.CachedDocuments.{IsTold};

use crate::cached_documents::{CachedDocuments, DocumentSource};
use crate::switch::is_public;
use http::request::Parts;
use server_responses::HttpResult;
use server_routes::PublicTarget;
use server_state::HallName;
use std::alloc::{AllocError, Global};
use std::sync::{Arc, Mutex, Wait};

/// The public documents, made once a publication: by the first request after it, while other requests are answered with
/// the ones before. So the author's room is read once a publication, however many requests there are. The lock of the
/// cached documents is held while a reference to them is cloned, the lock of the room while documents are made.
#[derive(Drop)]
pub struct PublicCache<K: HallName> {
    shown: Mutex<Arc<CachedDocuments<K>>>,
    making: Mutex<()>,
}

impl<K: HallName> PublicCache<K> {
    /// A cache with these documents.
    ///
    /// # Errors
    ///
    /// Out of memory.
    fn new(alloc: Global, shown: CachedDocuments<K>) -> Result<PublicCache<K>, AllocError> {
        Ok(PublicCache {
            shown: Mutex::new(Arc::new(alloc, shown)?),
            making: Mutex::new(()),
        })
    }

    /// A cache of the public documents by now, if a configuration's text turns them on; else none.
    ///
    /// # Errors
    ///
    /// Out of memory.
    pub fn open<A: DocumentSource<K>>(
        alloc: Global,
        configuration: &[u8],
        answers: &A,
    ) -> Result<Option<PublicCache<K>>, AllocError>
        ensures { IfOk result (λ window. is_some window ≡ is_public configuration.now) }
    {
        if !is_public(alloc, configuration)? {
            return Ok(None);
        }
        let window = PublicCache::new(alloc, CachedDocuments::of(answers)?)?;
        Ok(Some(window))
    }

    /// The cached documents.
    fn current<R: Wait>(&self, rt: &R) -> Result<Arc<CachedDocuments<K>>, AllocError> {
        let shown = self.shown.lock(rt);
        Arc::try_clone(&*shown)
    }

    /// Caches these documents from now on.
    fn store_cached<R: Wait>(&self, rt: &R, share: Arc<CachedDocuments<K>>) {
        *self.shown.lock(rt) = share;
    }

    /// The documents by now, by the one request that may make them: if another made them a moment ago, those.
    fn renew<R: Wait, A: DocumentSource<K>>(
        &self,
        rt: &R,
        alloc: Global,
        answers: &A,
    ) -> Result<Arc<CachedDocuments<K>>, AllocError> {
        let current = self.current(rt)?;
        if current.is_latest(answers) {
            return Ok(current);
        }
        let shown = Arc::new(alloc, CachedDocuments::of(answers)?)?;
        self.store_cached(rt, Arc::try_clone(&shown)?);
        Ok(shown)
    }

    /// The documents by now; the ones before, while another request makes them.
    fn latest<R: Wait, A: DocumentSource<K>>(
        &self,
        rt: &R,
        alloc: Global,
        answers: &A,
    ) -> Result<Arc<CachedDocuments<K>>, AllocError> {
        let current = self.current(rt)?;
        if current.is_latest(answers) {
            return Ok(current);
        }
        match self.making.try_lock() {
            Some(_making) => self.renew(rt, alloc, answers),
            None => Ok(current),
        }
    }

    /// The response to a request for this, with the documents by now; with the ones before, while another request makes
    /// them.
    ///
    /// # Errors
    ///
    /// Out of memory.
    pub fn respond<R: Wait, A: DocumentSource<K>>(
        &self,
        rt: &R,
        alloc: Global,
        answers: &A,
        asked: PublicTarget,
        parts: &Parts,
    ) -> HttpResult
        ensures { IfOk result (IsTold K.configuration asked parts.now) }
    {
        let shown = self.latest(rt, alloc, answers)?;
        shown.respond(alloc, asked, parts)
    }
}
