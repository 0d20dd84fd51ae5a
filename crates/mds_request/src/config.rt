//! The configuration: clients with their access tokens, limits and the time zone.
ghost use Rattle.std.specs.Prelude.{◌≡◌, ◌≤◌, map, vec_len, length, IfErr};
ghost use Rattle.mds_match.specs.declared.vehicle.TheConstants.{MOST_VEHICLES};
ghost use Rattle.mds_request.specs.declared.config.TheConstants.{MOST_OPERATORS};

use crate::fault::ConfigFault;
use crate::lookup::place_of;
use crate::read::config_from;
use mds_match::Zone;
use mds_text::Id;
use std::alloc::Global;

/// The most operators of a configuration.
pub const MOST_OPERATORS: usize = 64;
/// The most bytes of an access token.
pub const MOST_TOKEN: usize = 64;

/// The client that an access token belongs to.
#[derive(Clone, Copy, Debug, PartialEq, Eq)]
pub enum Actor {
    /// The author of policies and geographies.
    Author,
    /// The operator at this index of the configuration.
    Operator(usize),
    /// Anonymous: the access token is unknown.
    Nobody,
}

/// An operator of the configuration.
#[derive(Drop)]
pub struct Operator {
    /// The operator's identifier.
    pub id: Id,
    /// The most vehicles that the operator may have, from 1 to `mds_match::MOST_VEHICLES`.
    pub limit: usize,
    /// The operator's access token.
    pub token: String,
    ghost least: { 1 ≤ limit },
    ghost most: { limit ≤ MOST_VEHICLES },
}

/// A configuration: which clients there are, how many vehicles each operator may have, and the time
/// zone of rules.
#[derive(Drop)]
pub struct Config {
    pub(crate) author: String,
    pub(crate) operators: Vec<Operator>,
    pub(crate) zone: Zone,
    ghost few: { vec_len operators ≤ MOST_OPERATORS },
}

impl Config {
    ghost use Rattle.mds_request.specs.Configuration.{configuration, operator, actor_of, read_configuration};
    ghost use Rattle.mds_request.specs.Fault.{config_cause, IsApart};
    ghost use Rattle.mds_text.specs.Fault.{Gives};

    /// Reads a configuration: a JSON object with the members `author` (an access token: 1 to 64
    /// letters, digits, `-` and `_`), `operators` (a list of at most 64 objects with an `id`, a
    /// `limit` from 1 to 200,000 and an access `token`) and `zone` (a time zone). Other members are
    /// ignored.
    ///
    /// # Errors
    ///
    /// The first of these: the text is no JSON object; a member, in this order, isn't what it has
    /// to be; two operators have the same identifier, or two of all access tokens are equal
    /// (`Alike`). `NoMemory` in place of whatever would have followed a refused allocation.
    pub fn read(alloc: Global, text: &[u8]) -> Result<Config, ConfigFault>
        ensures reading { Gives config_cause configuration result (read_configuration text.now) }
        ensures apart { IfErr result IsApart }
    {
        match config_from(alloc, text) {
            Ok(config) => Ok(config),
            Err(fault) => Err(fault.normalize()),
        }
    }

    /// The author's access token, for showing a configuration. `actor` says which client a token
    /// belongs to.
    pub fn author(&self) -> &str
        ensures { result.now ≡ (configuration self.now).author }
    {
        self.author.as_str()
    }

    /// The operators, at most `MOST_OPERATORS`, in the order of the configuration.
    pub fn operators(&self) -> &[Operator]
        ensures all { map operator result.now ≡ (configuration self.now).operators }
        ensures few { length result.now ≤ MOST_OPERATORS }
    {
        self.operators.as_slice()
    }

    /// The time zone in which rules are open.
    pub fn zone(&self) -> &Zone
        ensures { result.now ≡ (configuration self.now).zone }
    {
        &self.zone
    }

    /// The client that an access token belongs to.
    pub fn actor(&self, token: &[u8]) -> Actor
        ensures { result ≡ actor_of (configuration self.now) token.now }
    {
        if self.author.as_bytes() == token {
            return Actor::Author;
        }
        match place_of(&self.operators, token) {
            Some(place) => Actor::Operator(place),
            None => Actor::Nobody,
        }
    }
}
