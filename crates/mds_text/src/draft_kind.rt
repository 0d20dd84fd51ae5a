//! The kinds of documents that an author drafts.
/// The two kinds of documents that an author drafts and publishes (MDS 2.0 Policy, Geography).
#[derive(Clone, Copy, Debug, PartialEq, Eq)]
pub enum DraftKind {
    Policy,
    Geography,
}
