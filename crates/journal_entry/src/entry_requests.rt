//! Conversion between entries and requests.
ghost use Rattle.std.specs.Prelude.{◌≡◌, option_map, map, position, bytes_eq};
ghost use Rattle.mds_request.specs.Configuration.{configuration, operator};
ghost use Rattle.mds_request.specs.Request.{request_of};
ghost use Rattle.journal_entry.specs.Entries.{entry_of};
ghost use Rattle.journal_entry.specs.Requests.{ReadsTheRequest, has_id, actor_by, token_of, client_at, entry_by, request_by};

use crate::entry::{EntryClient, JournalEntry};
use mds_request::{Actor, Config, Operator, Request};
use mds_text::Id;

/// Whether two identifiers are the same.
pub(crate) fn is_same(id: Id, other: Id) -> bool
    ensures { result ≡ bytes_eq id other }
{
    id == other
}

/// The index of the operator with this identifier.
fn place_of(operators: &[Operator], id: Id) -> Option<usize>
    ensures { result ≡ position (λ o. has_id id (operator o)) operators.now }
{
    operators
        .iter()
        .position(|operator| is_same(operator.id, id))
}

/// The client of an entry in a configuration; `Nobody` for an operator that isn't there.
pub fn actor_by(config: &Config, client: EntryClient) -> Actor
    ensures { result ≡ actor_by (configuration config.now) client }
{
    match client {
        EntryClient::Author => Actor::Author,
        EntryClient::Operator(id) => match place_of(config.operators(), id) {
            Some(place) => Actor::Operator(place),
            None => Actor::Nobody,
        },
    }
}

/// The client's access token.
fn token_of(config: &Config, actor: Actor) -> Option<&[u8]>
    ensures { option_map (λ token. token.now) result ≡ token_of (configuration config.now) actor }
{
    match actor {
        Actor::Author => Some(config.author().as_bytes()),
        Actor::Operator(place) => match config.operators().get(place) {
            Some(operator) => Some(operator.token.as_bytes()),
            None => None,
        },
        Actor::Nobody => None,
    }
}

/// The request of an entry, with its client's access token in this configuration; `None` where its operator isn't
/// there.
pub fn request_by<'a>(config: &'a Config, entry: &JournalEntry<'a>) -> Option<Request<'a>>
    ensures { option_map request_of result ≡ request_by (configuration config.now) (entry_of entry.now) }
{
    match token_of(config, actor_by(config, entry.client)) {
        Some(token) => Some(Request {
            at: entry.at,
            token,
            verb: entry.verb,
            target: entry.target,
            body: entry.body,
        }),
        None => None,
    }
}

/// The client, as an entry has it.
fn client_at(config: &Config, actor: Actor) -> Option<EntryClient>
    ensures { result ≡ client_at (configuration config.now) actor }
{
    match actor {
        Actor::Author => Some(EntryClient::Author),
        Actor::Operator(place) => match config.operators().get(place) {
            Some(operator) => Some(EntryClient::Operator(operator.id)),
            None => None,
        },
        Actor::Nobody => None,
    }
}

/// The entry of a request; `None` where no client has its access token.
pub fn entry_by<'a>(config: &Config, request: &Request<'a>) -> Option<JournalEntry<'a>>
    ensures { option_map entry_of result ≡ entry_by (configuration config.now) (request_of request.now) }
{
    match client_at(config, config.actor(request.token)) {
        Some(client) => Some(JournalEntry {
            client,
            at: request.at,
            verb: request.verb,
            target: request.target,
            body: request.body,
        }),
        None => None,
    }
}

/// The entry of a request, with the access tokens of the configuration, reads as that request, where no two operators
/// have the same identifier, as in each configuration that was read.
pub fn reads_the_request()
    ensures { ReadsTheRequest }
{}
