//! Laws of a register. Each function's contract is the law; the functions do nothing. They are of whatever messages
//! come, in whatever order, late, more than once or not at all, as long as each keeps to the protocol (`IsLawful`).
//! That etcd does with each what is defined, at one moment, is their premise.
ghost use Rattle.journal_register.specs.Laws.{
  OwnersGoUp,
  HeadsGoUp,
  RevisionsGoUp,
  LaterLooksFollow,
  OvertakenForGood,
  OnlyTheOwnerWrites,
  WhatShowsCame,
  OutcomesAreRight,
  BelowTheHeadStands,
  StagedStands,
  GenerationsAreOfOwners,
};

/// The owner stays the same, or one of a later epoch comes.
pub fn owners_go_up()
    ensures { OwnersGoUp }
{}

/// The head stays the same, or a later one comes.
pub fn heads_go_up()
    ensures { HeadsGoUp }
{}

/// At one revision there is one register.
pub fn revisions_go_up()
    ensures { RevisionsGoUp }
{}

/// `Look::may_precede` never refuses a look that came later.
pub fn later_looks_follow()
    ensures { LaterLooksFollow }
{}

/// Once an owner was overtaken, nothing that compares it is done any more.
pub fn overtaken_for_good()
    ensures { OvertakenForGood }
{}

/// While the owner is the same, only what compares it is done. So a look that confirms an owner shows that all that was
/// done since its claim is its own.
pub fn only_the_owner_writes()
    ensures { OnlyTheOwnerWrites }
{}

/// Where a register has the owner or the head that a transaction puts, that transaction was done.
pub fn what_shows_came()
    ensures { WhatShowsCame }
{}

/// `Transaction::outcome` is right about a transaction that was applied, and about one of an owner that was overtaken.
pub fn outcomes_are_right()
    ensures { OutcomesAreRight }
{}

/// What stands below the head's end stays, or is deleted once the head has left its generation.
pub fn below_the_head_stands()
    ensures { BelowTheHeadStands }
{}

/// A chunk that was staged stands until its generation is deleted.
pub fn staged_stands()
    ensures { StagedStands }
{}

/// The head's generation is of its owner or of an earlier one.
pub fn generations_are_of_owners()
    ensures { GenerationsAreOfOwners }
{}
