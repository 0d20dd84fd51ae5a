//! The published documents in two copies that readers look at without waiting, and notes of what was published.
#![tactic(auto)]

mod blank;
mod history;
mod note;
mod opening;
mod pane;
mod publisher;
mod rule;
mod snapshot_copy;

pub use blank::{Blank, prepare};
pub use history::OpeningName;
pub use note::Note;
pub use opening::{OpenFault, READER_PLACES, open};
pub use pane::{Look, NotShown, Pane};
pub use publisher::Publisher;
