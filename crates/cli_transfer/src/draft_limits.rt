//! Limits on the drafts that are sent, and on what may stand in a request.
ghost use Rattle.std.specs.Prelude.{◌≡◌};
ghost use Rattle.std.specs.List.{list_all, list_any};
ghost use Rattle.cli_transfer.specs.DraftLimits.{is_same_kind, is_same, why_unkept, is_visible_byte, is_visible};

use cli_documents::ImportDraft;
use mds_text::DraftKind;

/// The most bytes of a document: a server reads no longer body.
pub(crate) const MOST_BODY: usize = 1_048_576;

/// The most documents of an import: as many as a city may have published of both kinds.
pub(crate) const MOST_DRAFTS: usize = 1_024;

/// Why a draft isn't sent.
#[derive(Clone, Copy, Debug, PartialEq, Eq)]
pub(crate) enum SkipReason {
    /// It has more than 1,048,576 bytes.
    Long,
    /// Another of its kind and identifier comes before it.
    Twice,
    /// There are 1,024 others before it.
    Many,
}

fn is_same_kind(kind: DraftKind, other: DraftKind) -> bool
    ensures { result ≡ is_same_kind kind other }
{
    match (kind, other) {
        (DraftKind::Policy, DraftKind::Policy) => true,
        (DraftKind::Geography, DraftKind::Geography) => true,
        (DraftKind::Policy, DraftKind::Geography) | (DraftKind::Geography, DraftKind::Policy) => {
            false
        }
    }
}

/// Whether two drafts are of one kind and identifier.
fn is_same(draft: &ImportDraft, other: &ImportDraft) -> bool
    ensures { result ≡ is_same draft.now other.now }
{
    is_same_kind(draft.kind, other.kind) && draft.id == other.id
}

/// Whether a draft of this one's kind and identifier is among these.
fn is_there(drafts: &[ImportDraft], draft: &ImportDraft) -> bool
    ensures { result ≡ list_any (is_same draft.now) drafts.now }
{
    drafts.iter().any(|other| is_same(draft, other))
}

/// Why a draft isn't sent after these; `None` where it is.
pub(crate) fn skip_reason(drafts: &[ImportDraft], draft: &ImportDraft) -> Option<SkipReason>
    ensures { result ≡ why_unkept drafts.now draft.now }
{
    if MOST_BODY < draft.body.len() {
        Some(SkipReason::Long)
    } else if is_there(drafts, draft) {
        Some(SkipReason::Twice)
    } else if MOST_DRAFTS <= drafts.len() {
        Some(SkipReason::Many)
    } else {
        None
    }
}

impl SkipReason {
    /// The reason in words.
    pub(crate) fn words(self) -> &'static str {
        match self {
            SkipReason::Long => "it has more than 1048576 bytes",
            SkipReason::Twice => "one of its kind and identifier stands before it",
            SkipReason::Many => "1024 documents stand before it",
        }
    }
}

fn is_visible_byte(byte: u8) -> bool
    ensures { result ≡ is_visible_byte byte }
{
    33 <= byte && byte <= 126
}

fn are_visible(bytes: &[u8]) -> bool
    ensures { result ≡ list_all is_visible_byte bytes.now }
{
    for byte in bytes {
        if !is_visible_byte(*byte) {
            return false;
        }
    }
    true
}

/// Whether a word may stand in the head of a request.
pub(crate) fn is_visible(word: &str) -> bool
    ensures { result ≡ is_visible word.now }
{
    !word.is_empty() && are_visible(word.as_bytes())
}
