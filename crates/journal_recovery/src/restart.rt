//! The restart of a server from its journal.
ghost use Rattle.std.specs.Prelude.{◌≡◌, map, IfErr, IfOk, OnOk};
ghost use Rattle.mds_request.specs.Configuration.{configuration};
ghost use Rattle.mds_snapshot.specs.Opening.{book_of};
ghost use Rattle.mds_desk.specs.Room.{room_of};
ghost use Rattle.journal_entry.specs.Entries.{entry_of};
ghost use Rattle.journal_recovery.specs.Laws.{IsRefusedFrom, IsStartRefused, IsStartedAgain};
ghost use Rattle.journal_recovery.specs.Recovery.{server_of, AreAnswered};

use crate::fault::StartFault;
use crate::laws;
use crate::progress::Progress;
use crate::replay::recover;
use journal_entry::JournalEntry;
use mds_desk::{AuthorRoom, Desk, furnish};
use mds_request::Config;
use mds_snapshot::{Blank, OpenFault, OpeningName};
use std::alloc::Global;
use std::sync::Wait;

/// Replays entries at a room and desks of the room's configuration.
///
/// # Errors
///
/// `Opening` where no reference to the configuration could be made, `Stopped` at the first entry that wasn't answered
/// with success.
fn replay_all<K: OpeningName, R: Wait, P: Progress>(
    rt: &R,
    room: &mut AuthorRoom<K>,
    desks: &mut [Desk<K>],
    entries: &[JournalEntry<'_>],
    progress: &mut P,
) -> Result<(), StartFault>
    ensures answered { OnOk result (AreAnswered (room_of room.old).configuration (map entry_of entries.now)
        (server_of room.old desks.old) (server_of room.new desks.new)) }
    ensures refused { IfErr result (IsRefusedFrom (room_of room.old).configuration (map entry_of entries.now) (server_of room.old desks.old)) }
{
    let Ok(config) = room.configuration() else {
        return Err(StartFault::Opening(OpenFault::NoMemory));
    };
    match recover(rt, &config, room, desks, entries, progress) {
        Ok(()) => Ok(()),
        Err(fault) => Err(StartFault::Stopped(fault)),
    }
}

/// The author's room, and the desk of each operator in the configuration's order, as the server left them whose journal
/// has these entries: new ones, of the one opening that the blank is, replay them. K names the opening.
///
/// What that server answered and what is done from here on are what one server did. That holds for a journal that was
/// written with this configuration.
///
/// # Errors
///
/// `Opening` where out of memory or of reader slots as the room and the desks were made; `Stopped` at the first
/// entry that wasn't answered with success.
pub fn start_again<K: OpeningName, R: Wait, P: Progress>(
    rt: &R,
    alloc: Global,
    config: Config,
    blank: Blank,
    entries: &[JournalEntry<'_>],
    progress: &mut P,
) -> Result<(AuthorRoom<K>, Vec<Desk<K>>), StartFault>
    requires { book_of blank ≡ K.book }
    ensures started { IfOk result (λ r. IsStartedAgain (configuration config) (map entry_of entries.now) (server_of r.0 r.1.items)) }
    ensures refused { IfErr result (IsStartRefused (configuration config) (map entry_of entries.now)) }
{
    laws::replayed_are_turns();
    laws::journal_leads_back();
    laws::goes_on_as_one_server();
    let (mut room, mut desks) = match furnish::<K, R>(rt, alloc, config, blank) {
        Ok(furnished) => furnished,
        Err(fault) => return Err(StartFault::Opening(fault)),
    };
    match replay_all(rt, &mut room, &mut desks, entries, progress) {
        Ok(()) => Ok((room, desks)),
        Err(fault) => {
            room.finish(rt);
            Err(fault)
        }
    }
}
