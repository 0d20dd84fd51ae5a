//! The page's files as they lie in the program, and the HTTP response for each.
#![tactic(auto)]

mod file;
mod file_reply;
mod page;
mod page_settings;
mod response;
mod tag;
mod tagged_file;
mod texts;

pub use file::{FILES, File};
pub use page::Page;
pub use page_settings::PageSettings;
pub use tag::{is_named, tag_of};
