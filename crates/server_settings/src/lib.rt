//! What a configuration says of the page for people: its title, its first view and its map tiles.
#![tactic(auto)]

mod address;
mod document;
mod fault;
mod first_view;
mod policy;
mod settings;
mod title;

pub use document::settings_text;
pub use fault::{PageFault, page_fault};
pub use policy::content_policy;
pub use title::page_title;
