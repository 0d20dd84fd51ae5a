//! A published document with its moment.
use mds_text::Moment;

/// A published document and the moment of its publication.
#[derive(Clone, Copy)]
pub struct Published<'a, T> {
    /// The document.
    pub document: &'a T,
    /// When it was published, in milliseconds since the Unix epoch.
    pub moment: Moment,
}
