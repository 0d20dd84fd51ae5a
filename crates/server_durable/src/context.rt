//! What requests are answered with.
use std::alloc::Global;
use std::sync::Wait;

/// The runtime of turns: blocking waits, by a handle that can be copied.
pub trait TurnRuntime: Wait + Copy + Drop {}

impl<R: Wait + Copy + Drop> TurnRuntime for R {}

/// What requests are answered with: the runtime that waits for locks and syncs, the allocator of answers, and the
/// evaluator of vehicles.
#[derive(Drop)]
pub struct Context<'a, R, E> {
    pub rt: &'a R,
    pub alloc: Global,
    pub evaluator: &'a E,
}
