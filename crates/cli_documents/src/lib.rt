//! Documents of a file, or features of GeoJSON, as drafts in the order in which they are sent, or as refusals.
#![tactic(auto)]

mod bounds;
mod drafting;
mod features;
mod member;
mod order;

pub use bounds::unjudged_rule_ids;
pub use drafting::{
    DocumentLists, ImportDraft, Origin, PreparedDocument, RefusalReason, RefusedDocument,
    decimal_at, documents, prepare, target_of,
};
pub use features::{id_of_name, prepare_feature};
pub use member::{id_member, list_member, member_of, text_member};
pub use order::order_drafts;
