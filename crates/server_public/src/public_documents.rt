//! The public documents.
ghost use Rattle.std.specs.Prelude.{◌≡◌, codes, map};
ghost use Rattle.server_public.specs.Body.{body_text};

use crate::public_document::PublicDocument;
use bytes::Bytes;

/// The name of policies in a body.
pub(crate) const POLICIES: &str = "policies";

/// The name of geographies in a body.
pub(crate) const GEOGRAPHIES: &str = "geographies";

/// The public documents of what is published: each document, and both lists as cached bodies.
#[derive(Drop)]
pub struct PublicDocuments {
    pub(crate) policies: Vec<PublicDocument>,
    pub(crate) geographies: Vec<PublicDocument>,
    /// When one of them changed last, in milliseconds since the Unix epoch.
    pub(crate) updated: u64,
    pub(crate) all_policies: Bytes,
    pub(crate) all_geographies: Bytes,
    ghost policies_ready: { all_policies ≡ body_text (codes "policies") (map (λ n. n.text.items) policies.items) updated },
    ghost geographies_ready: { all_geographies ≡ body_text (codes "geographies") (map (λ n. n.text.items) geographies.items) updated },
}
