//! The author's drafts, and the batches that are made of them.
#![tactic(auto)]

mod draft;
mod drafts;
mod list;
mod publish;

pub use draft::Draft;
pub use drafts::{Drafts, MOST_DRAFTS, NoDraft, Put, PutFault};
pub use list::PublishList;
pub use publish::PublishFault;
