//! The server as a state machine, in definitions: what each request is answered, what becomes of vehicles, drafts and
//! publications, what an operator's replies depend on, and the one history that all running desks' requests are part
//! of.
#![tactic(auto)]

pub mod desk_laws;
pub mod laws;
