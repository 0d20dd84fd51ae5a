//! Laws of samples and replies. Each function's contract is the law; the functions do nothing.
ghost use Rattle.journal_samples.specs.Replies.{OthersCountForNothing, RepliesAsServed};
ghost use Rattle.journal_samples.specs.Samples.{SamplesAreAnswers};
ghost use Rattle.journal_samples.specs.Servers.{StandsAsServed};

/// What is sampled of an operator at a moment is what it would have been answered to `GET /compliance`.
pub fn samples_are_answers()
    ensures { SamplesAreAnswers }
{}

/// What stands of an operator after a journal's entries is what the whole server had of it that did what they tell, each
/// with success; so a sample is what this server would have answered, whatever other operators asked.
pub fn stands_as_served()
    ensures { StandsAsServed }
{}

/// The reply to an operator's call over what stands of it is what the whole server would have answered.
pub fn replies_as_served()
    ensures { RepliesAsServed }
{}

/// What stands of an operator after a journal's entries doesn't depend on other operators' entries.
pub fn others_count_for_nothing()
    ensures { OthersCountForNothing }
{}
