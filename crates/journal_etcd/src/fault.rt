//! Why a request isn't made, or an answer isn't read.
use std::alloc::AllocError;

/// Why a request isn't made.
#[derive(Clone, Copy, Debug, Drop, PartialEq, Eq)]
pub enum RequestFault {
    /// Memory ran out.
    NoMemory,
    /// The bytes are no chunk: none, or more than `MOST_CHUNK`; or there are some where no chunk is put.
    BadChunk,
}

impl From<AllocError> for RequestFault {
    ghost use Rattle.std.specs.Prelude.{◌≡◌};
    ghost use Rattle.journal_etcd.specs.declared.fault.RequestFault.TheVariants.{NoMemory};

    ghost from_gives = { λ _ fault. fault ≡ NoMemory };

    fn from(_: AllocError) -> RequestFault {
        RequestFault::NoMemory
    }
}

/// What is wrong with the body of an answer: the first fault from left to right.
#[derive(Clone, Copy, Debug, PartialEq, Eq)]
pub enum AnswerFault {
    /// It isn't JSON (RFC 8259).
    NotJson,
    /// A member is missing or of another kind, or is another key, base64 or value than this request's answer has.
    BadShape,
    /// A number has other characters than digits, or more of them than 64 bits hold.
    BadNumber,
}

/// Why an answer isn't read.
#[derive(Clone, Copy, Debug, Drop, PartialEq, Eq)]
pub enum AnswerError {
    /// Memory ran out.
    NoMemory,
    /// The body has this fault.
    Fault(AnswerFault),
}

impl From<AllocError> for AnswerError {
    ghost use Rattle.std.specs.Prelude.{◌≡◌};
    ghost use Rattle.journal_etcd.specs.declared.fault.AnswerError.TheVariants.{NoMemory};

    ghost from_gives = { λ _ error. error ≡ NoMemory };

    fn from(_: AllocError) -> AnswerError {
        AnswerError::NoMemory
    }
}
