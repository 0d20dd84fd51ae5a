//! An HTTP client: requests as text, heads and bodies of responses, and a connection that is kept and opened again.
#![tactic(auto)]

mod body;
mod client;
mod fault;
mod head;
mod request;

pub use body::body_of;
pub use client::{Client, Dial, HttpResponse};
pub use fault::ResponseFault;
pub use head::{HeadProgress, ParsedHead, parse_head};
pub use request::{ClientRequest, RemoteServer, request_text};
