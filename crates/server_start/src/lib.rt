//! What `mds_serve` is made of: its arguments, how many threads serve, why a start fails, and the
//! service of a hall that persists nothing.
#![tactic(auto)]

mod command;
mod count;
mod fault;
mod hall_service;
mod serving;
mod threads;

pub use command::{HELP, ServeCommand, USAGE, VERSION, command_of};
pub use count::count_of;
pub use fault::ServeFault;
pub use hall_service::HallService;
pub use serving::serve;
pub use threads::workers;
