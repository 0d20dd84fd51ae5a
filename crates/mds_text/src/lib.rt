//! JSON texts and trees, identifiers, moments and coordinates: what every document is made of.
#![tactic(auto)]

mod degrees;
mod draft_kind;
mod fault;
mod field;
mod id;
pub mod laws;
mod make;
mod moment;
mod number;
mod print;
mod quote;
mod read;
mod token;
mod tree;
mod units;

pub use degrees::units_of;
pub use draft_kind::DraftKind;
pub use fault::{NumberFault, TextFault};
pub use field::Field;
pub use id::Id;
pub use make::{
    add_member, bool_tree, copy_members, copy_tree, id_tree, int_tree, list_tree, object_tree,
    text_tree,
};
pub use moment::Moment;
pub use number::two_digits;
pub use print::{print_tree, print_units};
pub use quote::{is_quoted, quote_numbers};
pub use read::{read_and_count, read_tree};
pub use token::Token;
pub use tree::{Member, Tree};
pub use units::Units7;
