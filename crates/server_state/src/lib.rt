//! The server's state behind locks, the author's room and the desks: a head is resolved to its
//! client and call, and an HTTP request answered.
#![tactic(auto)]

mod answering;
mod early;
mod hall;
mod hall_name;
mod http_request;
mod locks;
mod resolved;
mod responding;
mod room_turns;
mod turn;
mod turn_list;
mod whole_request;

pub use answering::{HallContext, ToldTurn, respond, respond_with, take_desk_turn};
pub use early::read_whole;
pub use hall::{EndedDesks, Hall, HallEnd};
pub use hall_name::{HallName, SharedHallName};
pub use http_request::{target, token};
pub use locks::{EndedDesk, HallDesk, HallRoom};
pub use resolved::ResolvedCall;
pub use responding::response;
pub use room_turns::RoomTurns;
pub use server_admission::Arrived;
pub use turn::desk_turn;
pub use turn_list::{DeskTurns, TurnLists};
pub use whole_request::WholeRequest;
