//! The storage of a journal in the chunks of a register, beside the one in a file.
#![tactic(auto)]

mod below;
mod budget;
mod end;
mod engine;
mod fetch;
mod group;
mod memory_engine;
mod memory_register;
mod protocol;
mod remote_storage;
mod send;
mod tenure;
mod watch;

pub use below::read_below;
pub use budget::{LogBudget, LogUsage};
pub use engine::Engine;
pub use memory_engine::{Delivery, MemoryEngine, MemoryMessage, memory_storage};
pub use memory_register::{ChunkWrite, MemoryRegister};
pub use remote_storage::RemoteStorage;
pub use tenure::{MOST_CHUNK, Tenure};
pub use watch::{Watch, is_beat_due};
