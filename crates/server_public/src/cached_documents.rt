//! The public documents at one front of what is published.
ghost use Rattle.std.specs.Prelude.{◌≡◌, IfOk};
ghost use Rattle.server_public.specs.Response.{query_of};
ghost use Rattle.server_public.specs.CachedDocuments.{IsFace, IsTold};

use crate::public_documents::PublicDocuments;
use crate::refusal::PublicFault;
use crate::response::response_of;
use http::request::Parts;
use mds_snapshot::Note;
use server_responses::HttpResult;
use server_routes::PublicTarget;
use server_state::HallName;
use std::alloc::{AllocError, Global};

/// The public documents of the publications of the author's room, and the latest note before they were made. If there
/// is no later note, they are of what is published now.
#[derive(Drop)]
pub struct CachedDocuments<K: HallName> {
    note: Option<Note<K>>,
    face: PublicDocuments,
    ghost of_room: { ∥ IsFace K.configuration face ∥₁ },
}

/// A source of the public documents.
pub trait DocumentSource<K: HallName> {
    ghost use Rattle.std.specs.Prelude.{IfOk};
    ghost use Rattle.server_public.specs.CachedDocuments.{IsFace};

    /// The latest note; none where nothing was published since the start.
    fn note(&self) -> Option<Note<K>>;

    /// The public documents of what is published by now.
    ///
    /// # Errors
    ///
    /// Out of memory.
    fn documents(&self) -> Result<PublicDocuments, AllocError>
        ensures { IfOk result (IsFace K.configuration) };
}

/// Whether a note, if there is one, covers all that another one covers.
fn covers<K: HallName>(known: &Option<Note<K>>, latest: &Option<Note<K>>) -> bool {
    match (known, latest) {
        (_, None) => true,
        (None, Some(_)) => false,
        (Some(known), Some(latest)) => known.covers(latest),
    }
}

/// The query of a target.
fn query(parts: &Parts) -> &[u8]
    ensures { result.now ≡ query_of parts.now }
{
    match parts.uri.query() {
        Some(query) => query.as_bytes(),
        None => &[],
    }
}

impl<K: HallName> CachedDocuments<K> {
    /// The public documents by now.
    ///
    /// # Errors
    ///
    /// Out of memory.
    pub fn of<A: DocumentSource<K>>(answers: &A) -> Result<CachedDocuments<K>, AllocError> {
        // The note comes first, so that the documents are of no earlier front.
        let note = answers.note();
        let face = answers.documents()?;
        Ok(CachedDocuments { note, face })
    }

    /// Whether nothing was published since they were made.
    pub fn is_latest<A: DocumentSource<K>>(&self, answers: &A) -> bool {
        covers(&self.note, &answers.note())
    }

    /// The response to a request for this.
    ///
    /// # Errors
    ///
    /// Out of memory.
    pub fn respond(&self, alloc: Global, asked: PublicTarget, parts: &Parts) -> HttpResult
        ensures { IfOk result (IsTold K.configuration asked parts.now) }
    {
        let method = parts.method.as_str().as_bytes();
        let answer = self
            .face
            .answer(alloc, asked, method, query(parts), &parts.headers);
        match answer {
            Ok(body) => response_of(alloc, Ok(body)),
            Err(PublicFault::Refused(refusal)) => response_of(alloc, Err(refusal)),
            Err(PublicFault::NoMemory) => Err(AllocError),
        }
    }
}
