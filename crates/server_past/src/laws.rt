//! Laws of the past. The functions do nothing: their contracts are the laws.
ghost use Rattle.server_past.specs.Laws.{PastRepliesAreAnswers};

/// An operator's reply of the past is what the whole server would have answered it then, had it done what the journal's
/// entries tell in front of the first later one.
pub fn past_replies_are_answers()
    ensures { PastRepliesAreAnswers }
{}
