//! What a path of the public documents asks for.
ghost use Rattle.std.specs.Prelude.{◌≡◌};
ghost use Rattle.std.specs.Option.{option_or};
ghost use Rattle.server_routes.specs.Target.{asked_by, geography_at, identifier, list_at, policy_at};

use mds_text::Id;

/// What a request asks for: a list, or the document of an identifier, where the path ends with one.
#[derive(Clone, Copy)]
pub enum PublicTarget {
    /// The policies.
    Policies,
    /// One policy.
    Policy(Option<Id>),
    /// The geographies.
    Geographies,
    /// One geography.
    Geography(Option<Id>),
}

/// How many bytes the path of one policy has, up to its identifier.
const POLICY: usize = 18;

/// How many bytes the path of one geography has, up to its identifier.
const GEOGRAPHY: usize = 21;

/// The identifier at the end of a path.
pub(crate) fn identifier(text: &[u8]) -> Option<Id>
    ensures { result ≡ identifier text.now }
{
    match str::from_utf8(text) {
        Ok(text) => Id::read(text),
        Err(_) => None,
    }
}

/// The list that a path asks for.
fn list_at(path: &[u8]) -> Option<PublicTarget>
    ensures { result ≡ list_at path.now }
{
    if path == b"/mds/2.0/policies".as_slice() {
        Some(PublicTarget::Policies)
    } else if path == b"/mds/2.0/geographies".as_slice() {
        Some(PublicTarget::Geographies)
    } else {
        None
    }
}

/// The policy that a path asks for.
fn policy_at(path: &[u8]) -> Option<PublicTarget>
    ensures { result ≡ policy_at path.now }
{
    match path.split_at_checked(POLICY) {
        Some((front, id)) if front == b"/mds/2.0/policies/".as_slice() => {
            Some(PublicTarget::Policy(identifier(id)))
        }
        _ => None,
    }
}

/// The geography that a path asks for.
fn geography_at(path: &[u8]) -> Option<PublicTarget>
    ensures { result ≡ geography_at path.now }
{
    match path.split_at_checked(GEOGRAPHY) {
        Some((front, id)) if front == b"/mds/2.0/geographies/".as_slice() => {
            Some(PublicTarget::Geography(identifier(id)))
        }
        _ => None,
    }
}

/// The document that a path asks for.
fn one_at(path: &[u8]) -> Option<PublicTarget>
    ensures { result ≡ option_or (policy_at path.now) (geography_at path.now) }
{
    match policy_at(path) {
        Some(asked) => Some(asked),
        None => geography_at(path),
    }
}

impl PublicTarget {
    /// What a path, without its query, asks for; none, where it isn't a path of the public documents.
    pub fn by(path: &[u8]) -> Option<PublicTarget>
        ensures { result ≡ asked_by path.now }
    {
        match list_at(path) {
            Some(asked) => Some(asked),
            None => one_at(path),
        }
    }
}
