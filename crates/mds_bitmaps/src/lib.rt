//! The bitmap index of an operator's vehicles: bitmaps of each policy's rules, which of them a vehicle meets and which
//! are open, cached between questions and renewed for the vehicles that changed.
#![tactic(auto)]

mod bitmap_index;
pub mod bitmap_laws;
mod bits;
mod bounds;
mod columns;
mod criteria;
pub mod laws;
mod matcher;
mod moves;
mod open_rules;
mod words;

pub use bitmap_index::BitmapIndex;
pub use bits::{MOST_RULES, first_of};
pub use columns::{Columns, verdicts_by};
pub use matcher::PolicyMatcher;
pub use open_rules::open_bitmap;
