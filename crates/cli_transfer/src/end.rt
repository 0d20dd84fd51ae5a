//! How a transfer ends.
ghost use Rattle.std.specs.Prelude.{◌≡◌, ◌+◌, ◌-◌, ◌^◌, min};
ghost use Rattle.cli_transfer.specs.Ends.{end_of, exit_status};

use crate::token::TokenFault;
use cli_client::ResponseFault;
use std::alloc::AllocError;

/// How a transfer, an import or an export, ends.
#[derive(Clone, Copy, Debug, PartialEq, Eq)]
pub enum TransferEnd {
    /// All of it is done.
    Done,
    /// Something is refused, and each refusal was reported; all else is done.
    SomeRefused,
    /// No server answers, or its response is none that can be used.
    NoServer,
    /// A response of the server isn't complete, or can't be seen to be.
    BadReply(ResponseFault),
    /// Standard output can't be written.
    NotPrinted,
    /// The address or the access token may not stand in a request.
    BadPlace,
    /// The file of the access token has none.
    NoToken(TokenFault),
    /// Memory ran out.
    NoMemory,
    /// The folder can't be made or written.
    NotWritten,
    /// The server accepts nothing by this access token.
    Barred,
}

/// How many documents or vehicles were sent, or would be in a dry run, and how many were refused.
#[derive(Clone, Copy, Debug, PartialEq, Eq)]
pub struct TransferTally {
    pub sent: u64,
    pub refused: u64,
}

impl TransferTally {
    /// Nothing is counted yet.
    pub fn new() -> TransferTally
        ensures { result ≡ record { sent = 0; refused = 0 } }
    {
        TransferTally {
            sent: 0,
            refused: 0,
        }
    }

    /// Counts one more that is sent.
    pub fn count_sent(&mut self)
        ensures { self.new ≡ record self.old { sent = min (self.old.sent + 1) (2 ^ 64 - 1) } }
    {
        self.sent = self.sent.saturating_add(1);
    }

    /// Counts one more that is refused.
    pub fn count_refused(&mut self)
        ensures { self.new ≡ record self.old { refused = min (self.old.refused + 1) (2 ^ 64 - 1) } }
    {
        self.refused = self.refused.saturating_add(1);
    }

    /// How a transfer ends that wasn't cut short.
    pub fn end(&self) -> TransferEnd
        ensures { result ≡ end_of self.now }
    {
        if self.refused == 0 {
            TransferEnd::Done
        } else {
            TransferEnd::SomeRefused
        }
    }
}

impl TransferEnd {
    /// The program's exit status.
    pub fn status(self) -> u8
        ensures { result ≡ exit_status self }
    {
        match self {
            TransferEnd::Done => 0,
            TransferEnd::NoServer | TransferEnd::BadReply(_) | TransferEnd::NotPrinted => 1,
            TransferEnd::BadPlace | TransferEnd::NoToken(_) => 2,
            TransferEnd::NoMemory => 3,
            TransferEnd::NotWritten => 4,
            TransferEnd::SomeRefused => 9,
            TransferEnd::Barred => 10,
        }
    }

    /// The message on standard error; empty where all is done.
    pub fn message(self) -> &'static str {
        match self {
            TransferEnd::Done => "",
            TransferEnd::NoServer => "no server answers",
            TransferEnd::BadReply(fault) => fault.words(),
            TransferEnd::NotPrinted => "standard output can't be written",
            TransferEnd::BadPlace => "the address or the access token is none",
            TransferEnd::NoToken(fault) => fault.words(),
            TransferEnd::NoMemory => "memory ran out",
            TransferEnd::NotWritten => "the folder can't be used",
            TransferEnd::SomeRefused => "something was refused",
            TransferEnd::Barred => "the server takes nothing by this access token",
        }
    }
}

impl From<AllocError> for TransferEnd {
    ghost use Rattle.std.specs.Prelude.{◌≡◌};
    ghost use Rattle.cli_transfer.specs.declared.end.TransferEnd.TheVariants.{NoMemory};

    ghost from_gives = { λ _ e. e ≡ NoMemory };

    fn from(_: AllocError) -> TransferEnd {
        TransferEnd::NoMemory
    }
}

impl From<ResponseFault> for TransferEnd {
    ghost use Rattle.std.specs.Prelude.{◌≡◌};
    ghost use Rattle.cli_transfer.specs.Ends.{end_of_fault};

    ghost from_gives = { λ fault e. e ≡ end_of_fault fault };

    fn from(fault: ResponseFault) -> TransferEnd {
        match fault {
            ResponseFault::NoMemory => TransferEnd::NoMemory,
            ResponseFault::NoConnection => TransferEnd::NoServer,
            fault => TransferEnd::BadReply(fault),
        }
    }
}
