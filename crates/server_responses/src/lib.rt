//! HTTP responses: one more header field, a status with a body of JSON, and the fields of a refusal, of a 401 the
//! scheme of its credentials, of a 405 the methods of its target.
#![tactic(auto)]

mod fields;
mod hint;
mod json;
mod methods;
mod refusal_field;
mod refusal_reply;

pub use fields::{HttpResult, set_field, with_field};
pub use hint::RefusalHint;
pub use json::json_response;
pub use methods::{Methods, methods_of};
pub use refusal_field::with_refusal_field;
pub use refusal_reply::HintedReply;
