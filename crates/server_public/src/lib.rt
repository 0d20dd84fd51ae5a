//! The public documents: what everyone may read without an access token, in the words of MDS 2.0, cached once a
//! publication, and the responses to requests for them. They are the policies that are meant for everyone, and the
//! geographies that these name.
#![tactic(auto)]

mod accept_field;
mod answering;
mod body;
mod cached_documents;
mod documents_query;
pub mod laws;
mod making;
mod period;
mod public_cache;
mod public_document;
mod public_documents;
mod refusal;
mod response;
mod switch;
mod with_end;

pub use cached_documents::{CachedDocuments, DocumentSource};
pub use documents_query::PublicDocumentsQuery;
pub use period::Period;
pub use public_cache::PublicCache;
pub use public_document::PublicDocument;
pub use public_documents::PublicDocuments;
pub use refusal::{PublicFault, Refusal};
pub use response::response_of;
pub use switch::is_public;
