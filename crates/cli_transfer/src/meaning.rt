//! What the status of a response means for what was sent.
ghost use Rattle.std.specs.Prelude.{◌≡◌};
ghost use Rattle.cli_transfer.specs.Meanings.{meaning_of};

/// What a response means for what was sent.
#[derive(Clone, Copy, Debug, PartialEq, Eq)]
pub enum Meaning {
    /// It is accepted.
    Taken,
    /// It is refused, which says nothing about what else is sent.
    Refused,
    /// The client may send nothing.
    Barred,
    /// The server can't accept anything now.
    Unavailable,
}

/// What a response of this status means.
pub fn meaning_of(status: u16) -> Meaning
    ensures { result ≡ meaning_of status }
{
    match status {
        200 => Meaning::Taken,
        401 | 403 => Meaning::Barred,
        500.. => Meaning::Unavailable,
        _ => Meaning::Refused,
    }
}
