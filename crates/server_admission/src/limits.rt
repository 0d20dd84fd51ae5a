//! The server's limits for its connections, request bodies and queues. A head has at most 64 KiB,
//! which is the limit of the HTTP framing itself, and a body at most `mds_request::MOST_BODY` bytes.
ghost use Rattle.std.specs.Prelude.{◌≡◌};
ghost use Rattle.mds_request.specs.declared.call.TheConstants.{MOST_BODY};

/// The most connections at once.
pub const MOST_CONNECTIONS: usize = 4_096;

/// The most anonymous connections at once, which carried no known access token yet: half of all.
pub const MOST_ANONYMOUS: usize = 2_048;

/// The most connections at once of one client.
pub const MOST_OF_CLIENT: usize = 512;

/// How long a head may take to come, from its first byte. A connection whose head is late is
/// closed.
pub const HEAD_SECONDS: u64 = 10;

/// How long a body may take to come, after its head. A connection whose body is late is closed.
pub const BODY_SECONDS: u64 = 30;

/// How long a body is read and discarded whose request may not wait. The request is answered then.
pub const DISCARD_SECONDS: u64 = 2;

/// How long a connection may be idle. It is closed then.
pub const IDLE_SECONDS: u64 = 60;

/// How long a response may wait with nothing of it written to the socket. The connection is closed
/// then.
pub const STALL_SECONDS: u64 = 30;

/// How long after a response first had to wait for its socket it has to be written at `LEAST_RATE`
/// on average.
pub const SLOW_SECONDS: u32 = 120;

/// The least rate, in bytes a second, at which a response has to be written.
pub const LEAST_RATE: u64 = 16_384;

/// How long no connection is accepted after an accept failed.
pub const ACCEPT_PAUSE_MILLIS: u64 = 20;

/// How long a request pauses whose client's share was used up, before it is tried again.
pub const CROWDED_PAUSE_MILLIS: u64 = 10;

/// The most short answers to one client at once.
pub const MOST_SHORT: u32 = 4_096;

/// The most bytes of a report whose answer counts as short.
pub const SMALL_BODY: usize = 16_384;

/// The most bytes of a body that is too long that are read and discarded.
pub const MOST_DISCARDED: usize = 1_048_576;

/// The most bytes of one client's bodies that are coming or wait. All anonymous are one client.
pub const MOST_HELD: usize = 67_108_864;

/// The most bytes of all bodies that are coming or wait.
pub const MOST_HELD_BY_ALL: usize = 268_435_456;

/// The most requests of one client whose heads have come and whose responses aren't made.
pub const MOST_WAITING: usize = 1_024;

/// There are at most 4,096 connections, of which anonymous have half and any other client 512, and
/// at most 1,024 requests of one client wait.
pub fn limits_of_connections()
    ensures all { MOST_CONNECTIONS ≡ 4096 }
    ensures anonymous { MOST_ANONYMOUS ≡ 2048 }
    ensures each { MOST_OF_CLIENT ≡ 512 }
    ensures waiting { MOST_WAITING ≡ 1024 }
    ensures short { MOST_SHORT ≡ 4096 }
{}

/// A head has 10 seconds, a body 30, or 2 where it is discarded because the server is busy, an idle
/// connection 60; a response waits for its socket for at most 30 at a time, and is written at 16
/// KiB a second after 120. No connection is accepted for 20 milliseconds after a failed accept, and
/// a request whose client's share was used up isn't tried again for 10.
pub fn limits_of_times()
    ensures head { HEAD_SECONDS ≡ 10 }
    ensures body { BODY_SECONDS ≡ 30 }
    ensures passing { DISCARD_SECONDS ≡ 2 }
    ensures idle { IDLE_SECONDS ≡ 60 }
    ensures taking { STALL_SECONDS ≡ 30 }
    ensures slow { SLOW_SECONDS ≡ 120 }
    ensures least { LEAST_RATE ≡ 16384 }
    ensures pause { ACCEPT_PAUSE_MILLIS ≡ 20 }
    ensures crowded { CROWDED_PAUSE_MILLIS ≡ 10 }
{}

/// A body has at most 1 MiB, and 1 MiB more is read and discarded; bodies that wait have 64 MiB for
/// one client and 256 MiB for all. The answer to a report of more than 16 KiB counts as long.
pub fn limits_of_bodies()
    ensures body { MOST_BODY ≡ 1048576 }
    ensures past { MOST_DISCARDED ≡ 1048576 }
    ensures held { MOST_HELD ≡ 67108864 }
    ensures all { MOST_HELD_BY_ALL ≡ 268435456 }
    ensures small { SMALL_BODY ≡ 16384 }
{}
