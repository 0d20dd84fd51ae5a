//! JSON documents and their members, read straight from their tokens; an unusual text is read by
//! way of a tree.
#![tactic(auto)]

mod direct;
mod direct_fault;
mod entries;
mod fields;
mod first_entries;
mod lookahead;
mod members;
mod node;
mod node_buffer;
mod own;
mod point;
mod read;
mod whole;

pub use entries::{Entries, entries_of};
pub use fields::{
    bool_at, bound_at, document_of, id_at, ids_at, int_of, list_at, member_at, moment_at,
    object_of, required_id, required_ids, required_list, required_member, required_moment,
    required_text, required_token, text_at, text_of, token_at, tokens_at, tokens_of,
};
pub use node::{Node, NodeMember};
pub use node_buffer::{NodeBuffer, ReusableScratch};
pub use read::{read_and_count, read_tree};
