//! What is said to etcd of a register, and what it answers: the bodies of requests to its JSON gateway, and the bodies of
//! its answers, read to the register, to what is known of a transaction, and to chunks.
#![tactic(auto)]

mod answers;
mod chunks;
mod fault;
mod keys;
mod members;
mod numbers;
mod reading;
mod requests;
mod values;

pub use answers::{TransactionAnswer, read_look, read_transaction};
pub use chunks::{ChunkRun, chunks_request, read_chunks};
pub use fault::{AnswerError, AnswerFault, RequestFault};
pub use keys::Keys;
pub use reading::{read_head, read_owner};
pub use requests::{GatewayPath, MOST_CHUNK, look_request, transaction_request};
pub use values::{head_value, owner_value};
