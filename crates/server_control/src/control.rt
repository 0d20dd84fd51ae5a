//! The server's state, for its control port: serving, stopping or ended.
use crate::counters::Counters;
use crate::port::PortWaker;
use std::sync::atomic::{AtomicBool, Ordering};

/// Stops a server.
pub trait StopServer {
    /// The server stops from now on: it accepts nothing more, and what has begun is answered.
    fn stop(&self);
}

/// Whether a server serves, stops or has ended.
#[derive(Drop)]
pub struct Control {
    serves: AtomicBool,
    stops: AtomicBool,
    has_ended: AtomicBool,
}

/// The server of a control port.
#[derive(Drop)]
pub(crate) struct ControlledServer<'a, S> {
    pub(crate) control: &'a Control,
    pub(crate) counters: &'a Counters,
    pub(crate) stop: &'a S,
}

impl Control {
    /// A server that doesn't serve yet.
    pub const fn new() -> Control {
        Control {
            serves: AtomicBool::new(false),
            stops: AtomicBool::new(false),
            has_ended: AtomicBool::new(false),
        }
    }

    /// The server serves from now on.
    pub fn set_serving(&self) {
        self.serves.store(true, Ordering::SeqCst);
    }

    /// The server stops from now on, whoever began it.
    pub fn set_stopping(&self) {
        self.stops.store(true, Ordering::SeqCst);
    }

    pub(crate) fn is_serving(&self) -> bool {
        self.serves.load(Ordering::SeqCst) && !self.stops.load(Ordering::SeqCst)
    }

    pub(crate) fn has_ended(&self) -> bool {
        self.has_ended.load(Ordering::SeqCst)
    }

    /// The server has ended. This wakes its control port, which ends too.
    pub fn end(&self, port: &PortWaker) {
        self.set_stopping();
        self.has_ended.store(true, Ordering::SeqCst);
        port.wake();
    }
}
