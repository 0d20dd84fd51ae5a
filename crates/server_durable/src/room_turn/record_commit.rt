//! Commits a publication: its record is appended and synced before anybody sees it.
ghost use Rattle.std.specs.Prelude.{◌≡◌, Err, None, IfOk, IfNone, IfSome, IsSomeAnd, option_map};
ghost use Rattle.std.proofs.Props.{props};
ghost use Rattle.server_durable.specs.Owners.{IsOwnedBy};
ghost use Rattle.journal_commit.specs.declared.commit_log.CommitFault.TheVariants as fault;
ghost use Rattle.journal_commit.specs.declared.failure.LogFailure.{LogFailure};
ghost use Rattle.mds_request.specs.declared.config.Actor.TheVariants.{Author};
ghost use Rattle.server_admission.specs.Actor.{index_of};
ghost use Rattle.server_durable.specs.Logged.{ShowsTurns};
ghost use Rattle.server_durable.specs.Records.{IsAmong, IsShown, IsTitled, place_of};
ghost use Rattle.server_durable.specs.RoomLogged.{IsUnderway, WillOwnTurns};

use super::AuthorLog;
use crate::client_records::AuthorRecords;
use crate::context::TurnRuntime;
use crate::records::{CallReservation, append_or_release, give_back, is_accepted};
use journal_commit::{CommitFault, CommitLog, LogName, LogPosition, Reservation, Space};
use journal_file::Log;
use mds_desk::PublishGuard;
use mds_snapshot::Note;
use server_state::{Hall, HallName, RoomTurns};
use std::marker::{Brand, PhantomData};
use std::sync::Arc;

/// Which record it is: its payload, its reservation, and what the author knew of its own records before it. A request
/// passes its reservation to a function that is generic over it, which is called with `Brand`; the proof of that call
/// picks them.
pub(crate) trait RecordPayload {
    ghost use Rattle.std.specs.Prelude.{ℕ, List};
    ghost use Rattle.journal_commit.specs.Clients.{Own};
    ghost use Rattle.server_durable.specs.declared.records.CallReservation.{CallReservation};

    ghost text: { List ℕ };

    ghost reserved: { CallReservation };

    ghost own: { Own };
}

impl RecordPayload for Brand {
    ghost use Rattle.std.specs.Prelude.{[]};
    ghost use Rattle.server_durable.specs.declared.records.CallReservation.TheVariants.{Reads};

    ghost text = { [] };

    ghost reserved = { Reads };

    ghost own = { record { client = 0; texts = [] } };
}

/// The reservation for that record.
pub(crate) struct TitledReservation<T: RecordPayload> {
    place: Reservation,
    of: PhantomData<T>,
    ghost is_it: { place.text.items ≡ T.text },
}

/// Appends a request's record: before its publication is shown, if it publishes, and otherwise once the request was
/// answered.
pub(crate) struct RecordCommit<T: RecordPayload, K: HallName, R, N: LogName, L: Log, S: Space> {
    rt: R,
    keeper: Arc<CommitLog<N, L, S>>,
    /// The author's own records.
    records: AuthorRecords<K, N, L>,
    /// The reservation, until the record is appended. A request that reads has none.
    pub(super) held: Option<TitledReservation<T>>,
    /// What the append before a publication gave: the log position of all that was synced then.
    pub(super) shown: Option<Result<LogPosition<N, L>, CommitFault>>,
    ghost is_owned: { IfSome held (λ _. N.client_of T.text ≡ records.own.client) } by { Prim.hlevel props },
    ghost underway: { ∥ IsUnderway N.client_of T.reserved T.own (option_map (λ it. it.place) held) records.own shown ∥₁ },
}

impl<T: RecordPayload, K: HallName, R: TurnRuntime, N: LogName, L: Log, S: Space> PublishGuard
    for RecordCommit<T, K, R, N, L, S> {
    ghost use Rattle.server_durable.specs.Records.{IsShown};

    ghost given = { λ recording. IsShown L.may_be L.is_synced T.text recording.shown };

    fn may_publish(&mut self) -> bool {
        let Some(held) = self.held.take() else {
            return false;
        };
        let TitledReservation { place, of: _ } = held;
        match self
            .keeper
            .append_synced(&self.rt, &mut self.records.own, place)
        {
            Ok(stamp) => {
                self.shown = Some(Ok(stamp));
                true
            }
            Err(fault) => {
                self.shown = Some(Err(fault));
                false
            }
        }
    }
}

/// A reservation as one for that record.
fn titled_reservation<T: RecordPayload>(reserved: CallReservation) -> Option<TitledReservation<T>>
    requires { IsTitled T.text reserved }
    ensures { option_map (λ held. held.place) result ≡ place_of reserved }
{
    match reserved {
        CallReservation::Reads => None,
        CallReservation::Holds(place) => Some(TitledReservation {
            place,
            of: PhantomData,
        }),
    }
}

/// What is still reserved.
fn remaining_reservation<T: RecordPayload>(held: Option<TitledReservation<T>>) -> CallReservation
    ensures held { option_map (λ held. held.place) held ≡ place_of result }
    ensures title { IsTitled T.text result }
{
    match held {
        None => CallReservation::Reads,
        Some(held) => {
            let TitledReservation { place, of: _ } = held;
            CallReservation::Holds(place)
        }
    }
}

impl<T: RecordPayload, K: HallName, R: TurnRuntime, N: LogName, L: Log, S: Space> RecordCommit<
    T,
    K,
    R,
    N,
    L,
    S,
> {
    /// A recording for a request that isn't answered yet, with the author's own records.
    pub(crate) fn new(
        rt: R,
        keeper: Arc<CommitLog<N, L, S>>,
        records: AuthorRecords<K, N, L>,
        reserved: CallReservation,
    ) -> RecordCommit<T, K, R, N, L, S>
        requires owned { IsOwnedBy N.client_of records.own.client reserved }
        requires title { IsTitled T.text reserved }
        requires reserved { reserved ≡ T.reserved }
        requires own { records.own ≡ T.own }
        ensures held { option_map (λ held. held.place) result.held ≡ place_of reserved }
        ensures shown { result.shown ≡ None }
    {
        RecordCommit {
            rt,
            keeper,
            records,
            held: titled_reservation(reserved),
            shown: None,
        }
    }

    /// Completes the record once the request was answered with this status. The note is the latest of the hall from
    /// then on; where there is none, nothing was published. Returns the log position of all that the reply shows. The
    /// author's own records are put back as those of these turns of the room, unless the log failed.
    ///
    /// # Errors
    ///
    /// The log failed. It also fails where a record was appended for a publication that didn't happen: the log is ahead
    /// then. So it does where the turns aren't told, or a publication is no success, which doesn't happen.
    pub(super) fn complete(
        self,
        hall: &Hall<K>,
        note: Option<Note<K>>,
        turns: Option<RoomTurns<K>>,
        back: &mut Option<AuthorLog<K, N, L>>,
        status: u16,
    ) -> Result<LogPosition<N, L>, CommitFault>
        requires { IfSome turns (λ all. ∥ WillOwnTurns K.configuration N.client_of T.reserved T.own status all.front.seen.log ∥₁) }
        ensures shown { IsShown L.may_be L.is_synced T.text self.shown → IfOk result (IsAmong T.text) }
        ensures held { IfNone self.shown (IfSome self.held (λ _. status ≡ 200 → IfOk result (IsAmong T.text))) }
        ensures ahead { IfSome self.shown (λ _. IfNone note ((failure : LogFailure) × (result ≡ Err (fault.Failed failure)))) }
        ensures shows { IfOk result (λ stamp. IsSomeAnd turns (λ all.
            ∥ ShowsTurns K.configuration N.client_of (index_of Author) all.front.seen.log stamp ∥₁)) }
    {
        let RecordCommit {
            rt,
            keeper,
            mut records,
            held,
            shown,
        } = self;
        let is_published = note.is_some();
        if let Some(note) = note {
            hall.set_note(&rt, note);
        }
        let reserved = remaining_reservation(held);
        let Some(all) = turns else {
            give_back(&rt, &keeper, reserved);
            return Err(CommitFault::Failed(keeper.fail(&rt)));
        };
        let Some(shown) = shown else {
            let stamp = append_or_release(&rt, &keeper, &mut records.own, reserved, status)?;
            *back = Some(AuthorLog::of(all, records));
            return Ok(stamp);
        };
        // Nothing is reserved any more.
        give_back(&rt, &keeper, reserved);
        if is_published && is_accepted(status) {
            let stamp = shown?;
            *back = Some(AuthorLog::of(all, records));
            return Ok(stamp);
        }
        Err(CommitFault::Failed(keeper.fail(&rt)))
    }
}
