//! Laws of the machine. Each function's contract is the law; the functions do nothing.
ghost use Rattle.mds_machine.specs.Laws.{IsTotal, IsDetermined, RefusedLeaves, MemoryAloneIsUnavailable, LeavesOthers, LeavesRows, HasOneAnswer, GoesByHistory, BeginsKeyed};
ghost use Rattle.mds_machine.specs.Isolation.{IsIsolatedThroughout, IsMeantThroughout, IsMeantFromNew};

/// Every request has a possible reply.
pub fn is_total()
    ensures { IsTotal }
{}

/// Apart from running out of memory, a request has only one possible reply and only one next state.
pub fn is_determined()
    ensures { IsDetermined }
{}

/// A reply other than a success doesn't change the state.
pub fn refusal_keeps_state()
    ensures { RefusedLeaves }
{}

/// A request is answered 503 where memory runs out, and nowhere else: no other refusal has that status.
pub fn memory_alone_is_unavailable()
    ensures { MemoryAloneIsUnavailable }
{}

/// A request of an operator doesn't change the publications, the drafts or the rows of another operator.
pub fn leaves_others()
    ensures { LeavesOthers }
{}

/// A request of the author changes no rows.
pub fn leaves_rows()
    ensures { LeavesRows }
{}

/// An operator's view, which is its own requests and the publications in order, defines exactly one answer to its next
/// request.
pub fn has_one_answer()
    ensures { HasOneAnswer }
{}

/// The machine's drafts and publications after a history follow from the history: each draft is the last document that
/// was put with success, unless it was dropped or published after that, and each publication has the documents that
/// were drafts just before it.
pub fn goes_by_history()
    ensures { GoesByHistory }
{}

/// In a new machine each draft has its own identifier as its key.
pub fn begins_keyed()
    ensures { BeginsKeyed }
{}

/// An operator's replies are the answers that the published texts and its own earlier requests define, whatever others
/// ask in between and whatever is drafted; its own requests that were answered 503 leave no trace. What is published
/// afterwards, and the operator's rows, follow from its view again, so that a further history can go on from there. In
/// the initial state each draft has its own identifier as its key.
pub fn is_meant_throughout()
    ensures { IsMeantThroughout }
{}

/// In a history from a new machine these are the answers that the operator's view of the history alone defines.
pub fn is_meant_from_new()
    ensures { IsMeantFromNew }
{}

/// Take two histories, from states that agree for an operator, that look the same to it (its own requests and the
/// publications, at the same moments and in the same order), but for its requests that were answered 503. The replies to
/// the others are the same, and the states afterwards agree for it, whatever drafts and requests of others there are. In
/// both initial states each draft has its own identifier as its key.
pub fn is_isolated_throughout()
    ensures { IsIsolatedThroughout }
{}
