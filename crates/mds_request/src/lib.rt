//! Configurations, access tokens, requests with the call that each one is, refusals and replies.
#![tactic(auto)]

mod call;
mod code;
mod config;
mod fault;
mod lookup;
mod read;
mod reply;
mod request;
mod routes;

pub use call::{AuthorCall, Call, MOST_BODY, OperatorCall, read_call};
pub use code::Code;
pub use config::{Actor, Config, MOST_OPERATORS, MOST_TOKEN, Operator};
pub use fault::ConfigFault;
pub use reply::Reply;
pub use request::{Request, Verb};
pub use routes::Routes;
