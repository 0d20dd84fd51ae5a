//! Makes the public documents of the publications alone.
use crate::public_documents::PublicDocuments;
use mds_catalog::Catalogue;
use mds_desk::DeskQuery;
use std::alloc::{AllocError, Global};

/// Makes the public documents. It looks at what is published, and at nothing else: at no drafts, and at no operator's
/// vehicles.
#[derive(Clone, Copy)]
pub struct PublicDocumentsQuery;

impl DeskQuery for PublicDocumentsQuery {
    ghost use Rattle.server_public.specs.CachedDocuments.{IsFaceOf};

    type Told = PublicDocuments;

    ghost tells = { λ everyone publications told. IsFaceOf publications told };

    fn run_query(
        &self,
        alloc: Global,
        catalogue: &Catalogue,
    ) -> Result<PublicDocuments, AllocError> {
        PublicDocuments::new(alloc, catalogue)
    }
}
