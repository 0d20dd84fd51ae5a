//! The author's room and the operators' desks: an operator is answered from its own vehicles and one snapshot, without
//! waiting, while the author publishes, and bodies of what is published come from a response cache that all share.
#![tactic(auto)]

mod answer;
mod author;
mod cache;
mod cache_key;
mod context;
mod desk;
mod furnishing;
mod gate;
pub mod laws;
mod operator;
mod publish_guard;
mod query;
mod resolving;
mod shared_cache;

pub use answer::SharedReply;
pub use author::AuthorRoom;
pub use cache::ResponseCache;
pub use cache_key::{CacheKey, author_key, operator_key};
pub use desk::Desk;
pub use furnishing::furnish;
pub use gate::{Gate, OpenGate};
pub use publish_guard::{AlwaysPublish, PublishGuard};
pub use query::{DeskQuery, RoomQuery};
pub use shared_cache::SharedCache;
