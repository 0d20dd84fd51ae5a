//! A test hook in a desk's turn.
/// A test hook between the snapshot and the answer: with it a test holds one desk while others answer.
pub trait Gate {
    /// Called once for each call that is carried out, after the snapshot is taken and before the answer.
    fn held(&mut self);
}

/// A gate that does nothing.
#[derive(Clone, Copy, Debug)]
pub struct OpenGate;

impl Gate for OpenGate {
    fn held(&mut self) {}
}
