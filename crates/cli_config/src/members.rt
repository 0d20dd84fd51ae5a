//! The members of a configuration that the server reads.
ghost use Rattle.std.specs.Prelude.{◌≡◌, find, option_copied};
ghost use Rattle.cli_config.specs.Names.{name_of, known_of, others_of};
ghost use Rattle.cli_config.specs.FindKnown.{find_known};

use crate::located_members::MemberOwner;

/// The most bytes of an operator's `name`, as `server_app` reads it.
pub const MOST_NAME: usize = 256;

/// A member that the server reads.
#[derive(Clone, Copy, Debug, PartialEq, Eq)]
pub enum KnownMember {
    Author,
    Operators,
    /// How far the author sees how each operator stands: `"none"`, `"verdicts"` or `"vehicles"`.
    Oversight,
    /// The title, the first view and the map tiles of the page for people.
    Page,
    /// Whether the public documents are served: `true` or `false`.
    Public,
    Zone,
    Id,
    Limit,
    /// The name under which people know an operator.
    Name,
    Token,
}

impl KnownMember {
    /// The member's name in a configuration.
    pub fn name(self) -> &'static str
        ensures { result.now ≡ name_of self }
    {
        match self {
            KnownMember::Author => "author",
            KnownMember::Operators => "operators",
            KnownMember::Oversight => "oversight",
            KnownMember::Page => "page",
            KnownMember::Public => "public",
            KnownMember::Zone => "zone",
            KnownMember::Id => "id",
            KnownMember::Limit => "limit",
            KnownMember::Name => "name",
            KnownMember::Token => "token",
        }
    }
}

/// The members of the configuration.
const OF_DOCUMENT: [KnownMember; 6] = [
    KnownMember::Author,
    KnownMember::Operators,
    KnownMember::Oversight,
    KnownMember::Page,
    KnownMember::Public,
    KnownMember::Zone,
];
/// The members of an operator.
const OF_OPERATOR: [KnownMember; 4] = [
    KnownMember::Id,
    KnownMember::Limit,
    KnownMember::Name,
    KnownMember::Token,
];

/// The members of an object that the server reads.
pub(crate) fn known_of(owner: MemberOwner) -> &'static [KnownMember]
    ensures { result.now ≡ known_of owner }
{
    match owner {
        MemberOwner::Document => &OF_DOCUMENT,
        MemberOwner::Operator(_) => &OF_OPERATOR,
    }
}

/// The members that it reads of the other object.
pub(crate) fn others_of(owner: MemberOwner) -> &'static [KnownMember]
    ensures { result.now ≡ others_of owner }
{
    match owner {
        MemberOwner::Document => &OF_OPERATOR,
        MemberOwner::Operator(_) => &OF_DOCUMENT,
    }
}

/// The one of these with a name.
pub(crate) fn find_known<'k>(members: &'k [KnownMember], name: &str) -> Option<&'k KnownMember>
    ensures { option_copied result ≡ find_known name.now members.now }
{
    members.iter().find(|known| name == known.name())
}
