//! Requests to an etcd cluster's JSON gateway over HTTP/1.1: its members are asked in turn over one connection that is
//! kept, and only a 200 that was read whole is an answer.
#![tactic(auto)]

mod dial;
mod exchange;
mod fault;
mod gateway;
mod meaning;
mod members;
mod request;
mod tcp;
mod token;
mod user;

pub use dial::{Dial, MemberStream};
pub use exchange::{Exchange, GatewayReply, make_exchange};
pub use fault::GatewayFault;
pub use gateway::Gateway;
pub use meaning::{ReplyMeaning, meaning_of, needs_token, next_member};
pub use members::{is_member, members_in};
pub use tcp::{DialHost, MemberDialer, TcpMember, left_of};
pub use token::{read_token, token_request};
pub use user::{GatewayUser, user_in};
