//! From the faults of the crates below to the codes of refusals, and from these to replies.
ghost use Rattle.std.specs.Prelude.{◌≡◌};
ghost use Rattle.mds_geography.specs.Fault.{ring_cause};
ghost use Rattle.mds_machine.specs.Codes.{fault_code};

use mds_drafts::{PublishFault, PutFault};
use mds_fleet::BookFault;
use mds_geography::GeoFault;
use mds_geometry::RingFault;
use mds_policy::PolicyFault;
use mds_request::{Code, Reply};
use mds_text::TextFault;
use std::alloc::{AllocError, AllocFailed};

/// Why a call has no success.
#[derive(Clone, Copy, Debug)]
pub enum CallFault {
    /// It is refused, with this code.
    Refused(Code),
    /// Out of memory.
    Exhausted,
}

impl From<CallFault> for Reply {
    ghost use Rattle.std.specs.Prelude.{◌≡◌};
    ghost use Rattle.mds_request.specs.Reply.{refused};
    ghost use Rattle.mds_world.specs.Denied.{code_of};

    ghost from_gives = { λ denied reply. reply ≡ refused (code_of denied) };

    fn from(denied: CallFault) -> Reply {
        match denied {
            CallFault::Refused(code) => Reply::from(code),
            CallFault::Exhausted => Reply::from(Code::NoMemory),
        }
    }
}

impl From<AllocError> for CallFault {
    ghost use Rattle.std.specs.Prelude.{◌≡◌};
    ghost use Rattle.mds_world.specs.declared.call_fault.CallFault.TheVariants.{Exhausted};

    ghost from_gives = { λ _ e. e ≡ Exhausted };

    fn from(_refused: AllocError) -> CallFault {
        CallFault::Exhausted
    }
}

impl<T: Drop> From<AllocFailed<T>> for CallFault {
    ghost use Rattle.std.specs.Prelude.{◌≡◌};
    ghost use Rattle.mds_world.specs.declared.call_fault.CallFault.TheVariants.{Exhausted};

    ghost from_gives = { λ _ e. e ≡ Exhausted };

    fn from(_refused: AllocFailed<T>) -> CallFault {
        CallFault::Exhausted
    }
}

impl From<TextFault> for CallFault {
    ghost use Rattle.std.specs.Prelude.{◌≡◌, option_map};
    ghost use Rattle.mds_text.specs.Fault.{text_cause};
    ghost use Rattle.mds_machine.specs.Codes.{fault_code};
    ghost use Rattle.mds_world.specs.Denied.{denial};

    ghost from_gives = { λ fault e. denial e ≡ option_map fault_code (text_cause fault) };

    fn from(fault: TextFault) -> CallFault {
        match fault {
            TextFault::BadJson => CallFault::Refused(Code::BadJson),
            TextFault::BadField(_) => CallFault::Refused(Code::BadField),
            TextFault::BadNumber => CallFault::Refused(Code::BadNumber),
            TextFault::OutOfRange => CallFault::Refused(Code::OutOfRange),
            TextFault::NoMemory => CallFault::Exhausted,
        }
    }
}

impl From<PolicyFault> for CallFault {
    ghost use Rattle.std.specs.Prelude.{◌≡◌, option_map};
    ghost use Rattle.mds_policy.specs.Fault.{policy_cause};
    ghost use Rattle.mds_machine.specs.Codes.{fault_code};
    ghost use Rattle.mds_world.specs.Denied.{denial};

    ghost from_gives = { λ fault e. denial e ≡ option_map fault_code (policy_cause fault) };

    fn from(fault: PolicyFault) -> CallFault {
        match fault {
            PolicyFault::Text(fault) => CallFault::from(fault),
            PolicyFault::Decimal => CallFault::Refused(Code::Decimal),
            PolicyFault::TooManyRules => CallFault::Refused(Code::TooManyRules),
        }
    }
}

impl From<GeoFault> for CallFault {
    ghost use Rattle.std.specs.Prelude.{◌≡◌, option_map};
    ghost use Rattle.mds_geography.specs.Fault.{geo_cause};
    ghost use Rattle.mds_machine.specs.Codes.{fault_code};
    ghost use Rattle.mds_world.specs.Denied.{denial};

    ghost from_gives = { λ fault e. denial e ≡ option_map fault_code (geo_cause fault) };

    fn from(fault: GeoFault) -> CallFault {
        match fault {
            GeoFault::Text(fault) => CallFault::from(fault),
            GeoFault::Ring(fault) => CallFault::Refused(ring_code(fault)),
            GeoFault::TooManyPoints => CallFault::Refused(Code::TooManyPoints),
        }
    }
}

fn ring_code(fault: RingFault) -> Code
    ensures { result ≡ fault_code (ring_cause fault) }
{
    match fault {
        RingFault::Short => Code::RingShort,
        RingFault::Open => Code::RingOpen,
    }
}

impl From<BookFault> for CallFault {
    ghost use Rattle.std.specs.Prelude.{◌≡◌};
    ghost use Rattle.mds_machine.specs.Codes.{book_code};
    ghost use Rattle.mds_world.specs.Denied.{denial, unless_memory};

    ghost from_gives = { λ fault e. denial e ≡ unless_memory (book_code fault) };

    fn from(fault: BookFault) -> CallFault {
        match fault {
            BookFault::Future => CallFault::Refused(Code::Future),
            BookFault::Stale => CallFault::Refused(Code::Stale),
            BookFault::FleetFull => CallFault::Refused(Code::FleetFull),
            BookFault::NoMemory => CallFault::Exhausted,
        }
    }
}

impl From<PutFault> for CallFault {
    ghost use Rattle.std.specs.Prelude.{◌≡◌};
    ghost use Rattle.mds_machine.specs.Codes.{put_code};
    ghost use Rattle.mds_world.specs.Denied.{denial, unless_memory};

    ghost from_gives = { λ fault e. denial e ≡ unless_memory (put_code fault) };

    fn from(fault: PutFault) -> CallFault {
        match fault {
            PutFault::DraftsFull => CallFault::Refused(Code::DraftsFull),
            PutFault::NoMemory => CallFault::Exhausted,
        }
    }
}

impl From<PublishFault> for CallFault {
    ghost use Rattle.std.specs.Prelude.{◌≡◌};
    ghost use Rattle.mds_machine.specs.Codes.{publish_code};
    ghost use Rattle.mds_world.specs.Denied.{denial, unless_memory};

    ghost from_gives = { λ fault e. denial e ≡ unless_memory (publish_code fault) };

    fn from(fault: PublishFault) -> CallFault {
        match fault {
            PublishFault::Empty => CallFault::Refused(Code::Empty),
            PublishFault::NoDraft(_) => CallFault::Refused(Code::NoDraft),
            PublishFault::Published(_) => CallFault::Refused(Code::Published),
            PublishFault::NoGeography(_) => CallFault::Refused(Code::NoGeography),
            PublishFault::NoPredecessor(_) => CallFault::Refused(Code::NoPredecessor),
            PublishFault::NotPublished(_) => CallFault::Refused(Code::NotPublished),
            PublishFault::CatalogFull => CallFault::Refused(Code::CatalogFull),
            PublishFault::NoMemory => CallFault::Exhausted,
        }
    }
}
