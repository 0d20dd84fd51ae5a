//! Runs a command on a city's journal in etcd.
ghost use Rattle.std.specs.Prelude.{◌≡◌, ◌*◌, min};
ghost use Rattle.cli_log.specs.declared.run.TheConstants.{ROUNDS, MOST_MEMBERS};

use crate::end::LogCommandEnd;
use crate::fetch::fetch_journal;
use crate::folder::{UserFault, user_bytes};
use crate::host::LogHost;
use crate::place::{is_city, prefix_of};
use crate::seed::seed_journal;
use crate::status::print_status;
use cli_args::{LogCommand, LogPlace};
use journal_cluster::ClusterEngine;
use journal_gateway::{Gateway, GatewayUser, MemberDialer, members_in, user_in};

/// How many times a member is asked the same.
const ROUNDS: u32 = 4;

/// The most members, each of which is asked so many times.
const MOST_MEMBERS: u32 = 16;

/// How many times a request is sent to so many members.
fn attempts_for(members: usize) -> u32
    ensures { result ≡ min members MOST_MEMBERS * ROUNDS }
{
    match u32::try_from(members) {
        Ok(count) if count <= MOST_MEMBERS => count * ROUNDS,
        _ => MOST_MEMBERS * ROUNDS,
    }
}

/// The bytes of the user's file, where there is one.
///
/// # Errors
///
/// `NoUser`, `NoMemory`.
fn user_file_of<R: LogHost>(
    rt: &R,
    place: &LogPlace<'_>,
) -> Result<Option<Vec<u8>>, LogCommandEnd> {
    match place.user {
        Some(path) => Ok(Some(user_bytes(rt, path)?)),
        None => Ok(None),
    }
}

/// The user in the bytes of a file, where there is one.
///
/// # Errors
///
/// `NoUser`.
fn user_of(bytes: &Option<Vec<u8>>) -> Result<Option<GatewayUser<'_>>, LogCommandEnd> {
    let Some(bytes) = bytes else {
        return Ok(None);
    };
    match user_in(bytes) {
        Some(user) => Ok(Some(user)),
        None => Err(LogCommandEnd::NoUser(UserFault::BadShape)),
    }
}

/// Runs a command.
///
/// # Errors
///
/// How it ends, where not all is done.
fn run<R: LogHost>(rt: &R, asked: &LogCommand<'_>) -> Result<(), LogCommandEnd> {
    let alloc = rt.alloc();
    let place = asked.place();
    let Some(members) = members_in(alloc, place.cluster)? else {
        return Err(LogCommandEnd::BadCluster);
    };
    if !is_city(place.city) {
        return Err(LogCommandEnd::BadCity);
    }
    let prefix = prefix_of(alloc, place.city)?;
    let bytes = user_file_of(rt, &place)?;
    let user = user_of(&bytes)?;
    let dialer = MemberDialer { rt };
    let attempts = attempts_for(members.len());
    let gateway = Gateway::new(alloc, dialer, &members, user, attempts);
    let mut engine = ClusterEngine::new(alloc, gateway, prefix.as_str());
    match asked {
        LogCommand::Status(_) => print_status(rt, &mut engine),
        LogCommand::Fetch(folder, _) => fetch_journal(rt, folder, &mut engine),
        LogCommand::Seed(folder, _) => seed_journal(rt, folder, engine),
    }
}

/// The folder, file, city or address that the end of a command is about.
fn place_in<'a>(asked: &LogCommand<'a>, end: LogCommandEnd) -> Option<&'a str> {
    let place = asked.place();
    match end {
        LogCommandEnd::Done | LogCommandEnd::NotPrinted | LogCommandEnd::NoMemory => None,
        LogCommandEnd::NoAnswer(_)
        | LogCommandEnd::BadAnswer
        | LogCommandEnd::BadCluster
        | LogCommandEnd::Barred(_) => Some(place.cluster),
        LogCommandEnd::BadCity
        | LogCommandEnd::NotSeeded
        | LogCommandEnd::Unclaimed
        | LogCommandEnd::Claimed => Some(place.city),
        LogCommandEnd::NoUser(_) => place.user,
        LogCommandEnd::Unusable
        | LogCommandEnd::Present
        | LogCommandEnd::NoJournal
        | LogCommandEnd::Locked
        | LogCommandEnd::Damaged
        | LogCommandEnd::NotWritten => match asked {
            LogCommand::Fetch(folder, _) | LogCommand::Seed(folder, _) => Some(*folder),
            LogCommand::Status(_) => Some(place.city),
        },
    }
}

/// Runs a command, says on standard error how it ended where not all is done, and gives the exit status.
pub fn run_log<R: LogHost>(rt: &R, asked: &LogCommand<'_>) -> u8 {
    let end = match run(rt, asked) {
        Ok(()) => LogCommandEnd::Done,
        Err(end) => end,
    };
    let message = end.message();
    if end != LogCommandEnd::Done {
        let _ = match place_in(asked, end) {
            Some(place) => eprintln!(rt; "ruffletuff: {message}: {place}"),
            None => eprintln!(rt; "ruffletuff: {message}"),
        };
    }
    end.status()
}
