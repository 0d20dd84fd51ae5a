//! When a response may leave, which round confirms it, what the flusher does next, and whether a reservation may be
//! made: decisions over plain values.
ghost use Rattle.std.specs.Prelude.{◌≡◌, ◌+◌, ◌<◌, ◌≤◌, max, true, false, IfSome, IfNone, IsTrue, Some, None, ◌↔◌};
ghost use Rattle.journal_commit.specs.declared.decisions.Confirmation.TheVariants as confirmations;
ghost use Rattle.journal_commit.specs.declared.decisions.Round.TheVariants as rounds;
ghost use Rattle.journal_commit.specs.declared.decisions.ResponseTiming.TheVariants as tellings;
ghost use Rattle.journal_commit.specs.Shares.{MayReserve};

use crate::failure::LogFailure;

/// The most payloads that wait to be written, together with those that have reservations.
pub const MOST_TEXTS: usize = 16_384;

/// The most bytes that these take in the log.
pub const MOST_BYTES: u64 = 33_554_432;

/// The most of these payloads that are one client's.
pub const MOST_TEXTS_OF_ONE: usize = 4_096;

/// The most bytes that these take in the log.
pub const MOST_BYTES_OF_ONE: u64 = 8_388_608;

/// How many bytes are left for each client that has nothing, next to a reservation for one payload.
pub const LEAST_BYTES: u64 = 65_536;

/// The most clients for which as much can be left.
pub const MOST_CLIENTS: usize = 512;

/// What waits to be written together with what is reserved, of one client or of all.
#[derive(Clone, Copy, Debug, PartialEq, Eq)]
pub struct Usage {
    pub texts: usize,
    /// How many bytes the records of these payloads take in the log.
    pub bytes: u64,
}

/// Whether responses wait for a confirmation: for a round, as the flusher's syncs are, that begins after the response
/// was made and ends well. It shows that at some moment of it this process still owned the log.
#[derive(Clone, Copy, Debug, PartialEq, Eq)]
pub enum Confirmation {
    /// None does: no other process can come to own the log, as where it is a locked file.
    NotNeeded,
    /// Each does, whatever it shows.
    EachResponse,
}

/// Whether a response may leave.
#[derive(Clone, Copy, Debug, PartialEq, Eq)]
pub enum ResponseTiming {
    /// All that it shows is synced, and it is confirmed where that is needed.
    Now,
    /// Once both are so.
    Later,
    /// Never: an append or a sync failed, or the flusher ended before the response was confirmed.
    Never(LogFailure),
}

/// What the flusher does next.
#[derive(Clone, Copy, Debug, PartialEq, Eq)]
pub enum Round {
    /// It waits: nothing is to be written.
    Wait,
    /// It writes and syncs all that waits, which confirms responses too.
    Flush,
    /// It syncs alone, to confirm responses: nothing is to be written.
    Confirm,
    /// It ends: nothing waits, and nothing more can come.
    End,
}

/// The round behind which another confirms a response that is made now: the last that has begun, since it may have shown
/// who owns the log before the response was made. None where no confirmation is needed.
pub fn confirmed_after(confirmation: Confirmation, begun: u64) -> Option<u64>
    ensures none { confirmation ≡ confirmations.NotNeeded → result ≡ None }
    ensures last { confirmation ≡ confirmations.EachResponse → result ≡ Some begun }
{
    match confirmation {
        Confirmation::NotNeeded => None,
        Confirmation::EachResponse => Some(begun),
    }
}

/// Whether a response is confirmed, by the round behind which another confirms it, and the last that ended well.
pub fn is_confirmed(after: Option<u64>, ended: u64) -> bool
    ensures none { after ≡ None → result ≡ true }
    ensures later { IfSome after (λ begun. IsTrue result ↔ (begun < ended)) }
{
    match after {
        None => true,
        Some(begun) => begun < ended,
    }
}

/// The round behind which another confirms all responses that wait, by that of those before and that of one more.
pub(crate) fn all_confirmed_after(wanted: Option<u64>, begun: u64) -> u64
    ensures first { wanted ≡ None → result ≡ begun }
    ensures both { IfSome wanted (λ before. result ≡ max before begun) }
{
    match wanted {
        None => begun,
        Some(before) => before.max(begun),
    }
}

/// Why a response never leaves, by the log's failure, the end of the flusher, after which no round comes, and whether
/// the response is confirmed. None where it may still leave.
pub(crate) fn response_failure(
    failed: Option<LogFailure>,
    ended: Option<LogFailure>,
    is_confirmed: bool,
) -> Option<LogFailure>
    ensures failed { IfSome failed (λ failure. result ≡ Some failure) }
    ensures confirmed { failed ≡ None → is_confirmed ≡ true → result ≡ None }
    ensures unconfirmed { failed ≡ None → is_confirmed ≡ false → result ≡ ended }
{
    match (failed, is_confirmed) {
        (Some(failure), _) => Some(failure),
        (None, true) => None,
        (None, false) => ended,
    }
}

/// Whether a response may leave, by why it never does, whether all that it shows is synced, and whether it is confirmed.
pub fn may_respond(
    failure: Option<LogFailure>,
    is_synced: bool,
    is_confirmed: bool,
) -> ResponseTiming
    ensures never { IfSome failure (λ failed. result ≡ tellings.Never failed) }
    ensures now { failure ≡ None → is_synced ≡ true → is_confirmed ≡ true → result ≡ tellings.Now }
    ensures unsynced { failure ≡ None → is_synced ≡ false → result ≡ tellings.Later }
    ensures unconfirmed { failure ≡ None → is_confirmed ≡ false → result ≡ tellings.Later }
{
    match (failure, is_synced && is_confirmed) {
        (Some(failed), _) => ResponseTiming::Never(failed),
        (None, true) => ResponseTiming::Now,
        (None, false) => ResponseTiming::Later,
    }
}

/// What the flusher does next, by how many payloads wait, how many reservations there are, whether it is to stop, and
/// whether a round is wanted by a response that waits.
pub fn next_round(waiting: usize, held: usize, is_stopping: bool, is_wanted: bool) -> Round
    ensures flush { 0 < waiting → result ≡ rounds.Flush }
    ensures confirm { waiting ≡ 0 → is_wanted ≡ true → result ≡ rounds.Confirm }
    ensures end { waiting ≡ 0 → is_wanted ≡ false → held ≡ 0 → is_stopping ≡ true → result ≡ rounds.End }
    ensures held { waiting ≡ 0 → is_wanted ≡ false → 0 < held → result ≡ rounds.Wait }
    ensures wait { waiting ≡ 0 → is_wanted ≡ false → is_stopping ≡ false → result ≡ rounds.Wait }
{
    if waiting > 0 {
        Round::Flush
    } else if is_wanted {
        Round::Confirm
    } else if is_stopping && held == 0 {
        Round::End
    } else {
        Round::Wait
    }
}

/// Whether so much more fits next to what is there.
fn fits(there: u64, more: u64, most: u64) -> bool
    ensures { IsTrue result ↔ (there + more ≤ most) }
{
    there <= most && more <= most - there
}

/// Whether so much more may be reserved for a client, by what it has itself (`own`), what all have with it (`all`), and
/// how many others have nothing (`without`): it stays within its share, and one reservation is left for each of those.
pub fn may_reserve(own: Usage, all: Usage, without: usize, more: Usage) -> bool
    ensures { IsTrue result ↔ MayReserve own all without more }
{
    if without > MOST_CLIENTS {
        return false;
    }
    let texts_left = (MOST_TEXTS - without) as u64;
    let bytes_left = MOST_BYTES - without as u64 * LEAST_BYTES;
    let more_texts = more.texts as u64;
    fits(own.texts as u64, more_texts, MOST_TEXTS_OF_ONE as u64)
        && fits(own.bytes, more.bytes, MOST_BYTES_OF_ONE)
        && fits(all.texts as u64, more_texts, texts_left)
        && fits(all.bytes, more.bytes, bytes_left)
}
