//! Decisions about a connection: its limits, whose it is, whether it gets a slot, what may wait,
//! and what an answer takes of its client's queue.
#![tactic(auto)]

mod actor;
mod arrival;
mod cost;
mod head_phase;
mod limits;
mod moment;
mod moments;
mod slot;
mod slow_client;
mod waiting;

pub use actor::index_of;
pub use arrival::{Arrived, BodyEnd, Piece};
pub use cost::{Cost, cost_of};
pub use head_phase::{HeadPhase, is_answering};
pub use limits::{
    ACCEPT_PAUSE_MILLIS, BODY_SECONDS, CROWDED_PAUSE_MILLIS, DISCARD_SECONDS, HEAD_SECONDS,
    IDLE_SECONDS, LEAST_RATE, MOST_ANONYMOUS, MOST_CONNECTIONS, MOST_DISCARDED, MOST_HELD,
    MOST_HELD_BY_ALL, MOST_OF_CLIENT, MOST_SHORT, MOST_WAITING, SLOW_SECONDS, SMALL_BODY,
    STALL_SECONDS, limits_of_bodies, limits_of_connections, limits_of_times,
};
pub use moment::moment_of;
pub use moments::{MachineClock, Moments};
pub use slot::{Decision, slot_for};
pub use slow_client::is_too_slow;
pub use waiting::{Load, load_bytes_of, may_wait};
