//! A line protocol: a configuration line and request lines in, one answer line out for each request, by any `Machine`.
#![tactic(auto)]

mod cut;
mod fault;
mod gather;
pub mod laws;
mod line_end;
mod lines;
mod machine;
mod replay;
mod source_sink;
mod streams;
mod world;
mod write;

pub use cut::moment_of;
pub use fault::ReplayFault;
pub use gather::LINE_LIMIT;
pub use line_end::without_end;
pub use lines::INPUT_LIMIT;
pub use machine::Machine;
pub use source_sink::{Failed, InputStream, OutputStream, Sink, Source};
pub use streams::{run, run_with_detail};
