//! Permission to show what is about to be published.

/// Asked before a publication becomes visible: for a server that persists it first.
pub trait PublishGuard {
    ghost use Rattle.std.specs.Prelude.{◌≡◌, true};

    /// Permission was given.
    ghost given: { Self → Type 0 };

    /// Whether the publication may become visible. Asked once the reply is made, and before anything is visible.
    fn may_publish(&mut self) -> bool
        ensures { result ≡ true → given self.new };
}

/// Always gives permission.
#[derive(Clone, Copy, Debug)]
pub struct AlwaysPublish;

impl PublishGuard for AlwaysPublish {
    ghost use Rattle.std.specs.Prelude.{⊤};

    ghost given = { λ always. ⊤ };

    fn may_publish(&mut self) -> bool {
        true
    }
}
