//! Why nothing that decides came back from a cluster.

use journal_etcd::{AnswerError, AnswerFault, RequestFault};
use journal_gateway::GatewayFault;
use std::alloc::AllocError;

/// Why nothing that decides came back. What was sent may have come all the same.
#[derive(Clone, Copy, Debug, Drop, PartialEq, Eq)]
pub enum ClusterFault {
    /// Memory ran out.
    NoMemory,
    /// No member answered.
    Unanswered(GatewayFault),
    /// The answer isn't one to what was sent.
    Unread(AnswerFault),
    /// What was to be sent has no chunk's bytes where it puts one, or has bytes where it puts none.
    BadChunk,
}

impl From<AllocError> for ClusterFault {
    ghost use Rattle.std.specs.Prelude.{◌≡◌};
    ghost use Rattle.journal_cluster.specs.declared.fault.ClusterFault.TheVariants.{NoMemory};

    ghost from_gives = { λ _ fault. fault ≡ NoMemory };

    fn from(_: AllocError) -> ClusterFault {
        ClusterFault::NoMemory
    }
}

impl From<GatewayFault> for ClusterFault {
    ghost use Rattle.std.specs.Prelude.{◌≡◌};
    ghost use Rattle.journal_cluster.specs.Faults.{fault_of_gateway};

    ghost from_gives = { λ fault found. found ≡ fault_of_gateway fault };

    fn from(fault: GatewayFault) -> ClusterFault {
        match fault {
            GatewayFault::NoMemory => ClusterFault::NoMemory,
            fault => ClusterFault::Unanswered(fault),
        }
    }
}

impl From<AnswerError> for ClusterFault {
    ghost use Rattle.std.specs.Prelude.{◌≡◌};
    ghost use Rattle.journal_cluster.specs.Faults.{fault_of_answer};

    ghost from_gives = { λ error found. found ≡ fault_of_answer error };

    fn from(error: AnswerError) -> ClusterFault {
        match error {
            AnswerError::NoMemory => ClusterFault::NoMemory,
            AnswerError::Fault(fault) => ClusterFault::Unread(fault),
        }
    }
}

impl From<RequestFault> for ClusterFault {
    ghost use Rattle.std.specs.Prelude.{◌≡◌};
    ghost use Rattle.journal_cluster.specs.Faults.{fault_of_request};

    ghost from_gives = { λ fault found. found ≡ fault_of_request fault };

    fn from(fault: RequestFault) -> ClusterFault {
        match fault {
            RequestFault::NoMemory => ClusterFault::NoMemory,
            RequestFault::BadChunk => ClusterFault::BadChunk,
        }
    }
}
