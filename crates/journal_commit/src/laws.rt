//! Laws of group commit. The functions do nothing: their contracts are the laws.
ghost use Rattle.journal_commit.specs.Reservations.{PlacesAreEnough};
ghost use Rattle.journal_commit.specs.Shares.{OneIsLeftForEach};

/// The disk space reserved for the payloads of a group is enough for its records.
pub fn reservations_are_enough()
    ensures { PlacesAreEnough }
{}

/// However much others have reserved, a client that has nothing may reserve one payload.
pub fn one_is_left_for_each()
    ensures { OneIsLeftForEach }
{}
