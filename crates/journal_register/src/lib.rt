//! The register of a journal in etcd: who owns the journal, where it ends, the transactions that change this, what an
//! answer to one means, and that an owner that was overtaken changes nothing any more.
#![tactic(auto)]

mod head;
pub mod laws;
mod look;
mod outcome;
mod owner;
mod transaction;

pub use head::{Extent, FIRST_HEAD, Generation, Head, NO_HEAD, Switch};
pub use look::Look;
pub use outcome::{Answer, Outcome};
pub use owner::{MOST_COUNT, NOBODY, Owner, may_claim};
pub use transaction::{ChunkKey, Transaction};
