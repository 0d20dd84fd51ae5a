//! Laws of the answers for people. The functions do nothing: their contracts are the laws.
ghost use Rattle.server_app.specs.Laws.{ConfigurationsAreBadged, WhoGoesByOwnBadge, WithdrawnFromIsRight};

/// A policy is withdrawn at a moment exactly if that isn't before the moment that is reported.
pub fn withdrawal_moment_is_right()
    ensures { WithdrawnFromIsRight }
{}

/// Each configuration's text, read for names, gives an entry for each of its operators, in their
/// order.
pub fn configurations_have_names()
    ensures { ConfigurationsAreBadged }
{}

/// The answer to an operator about who it is depends on its own identifier and name, and on how far
/// the author sees and the zone, alone.
pub fn whoami_is_by_own_name()
    ensures { WhoGoesByOwnBadge }
{}
