//! What a client knows of its own records in the log.
ghost use Rattle.std.specs.Prelude.{◌≡◌, [], length};
ghost use Rattle.journal_commit.specs.Clients.{of_client};

use crate::history::{LogName, LogPosition};
use journal_file::Log;
use std::marker::Model;

/// A client's own records since the log was opened: how many they are, and the log position of the last of them. A
/// record is appended only by who has all those before it.
#[derive(Drop)]
pub struct OwnRecords<K: LogName, L: Log> {
    client: usize,
    count: u64,
    position: LogPosition<K, L>,
}

impl<K: LogName, L: Log> Model for OwnRecords<K, L> {
    ghost use Rattle.std.specs.Prelude.{◌≡◌, length};
    ghost use Rattle.journal_commit.specs.Clients.{Own, of_client};

    ghost Value = { Own };

    ghost view = { λ o. record { client = o.client; texts = o.position } };

    ghost invariant = { λ o. o.count ≡ length (of_client K.client_of o.client o.position) };
}

impl<K: LogName, L: Log> OwnRecords<K, L> {
    /// A client that has appended nothing, by its number and the log position at which nothing is appended.
    pub fn new(client: usize, nothing: &LogPosition<K, L>) -> OwnRecords<K, L>
        requires { nothing.now ≡ [] }
        ensures client { result.client ≡ client }
        ensures texts { result.texts ≡ [] }
    {
        OwnRecords {
            client,
            count: 0,
            position: nothing.again(),
        }
    }

    /// A client that has appended so many of these payloads.
    pub(crate) fn at(client: usize, count: u64, position: LogPosition<K, L>) -> OwnRecords<K, L>
        requires { count ≡ length (of_client K.client_of client position) }
        ensures client { result.client ≡ client }
        ensures texts { result.texts ≡ position }
    {
        OwnRecords {
            client,
            count,
            position,
        }
    }

    /// The client's number.
    pub fn client(&self) -> usize
        ensures { result ≡ self.now.client }
    {
        self.client
    }

    /// How many records it has appended.
    pub fn count(&self) -> u64
        ensures { result ≡ length (of_client K.client_of self.now.client self.now.texts) }
    {
        self.count
    }

    /// The log position of the last of them.
    pub fn position(&self) -> &LogPosition<K, L>
        ensures { result.now ≡ self.now.texts }
    {
        &self.position
    }
}
