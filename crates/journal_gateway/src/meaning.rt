//! What a response means, and what is done next.
ghost use Rattle.std.specs.Prelude.{◌≡◌, ◌<◌, not, ◌&&◌};
ghost use Rattle.journal_gateway.specs.Meanings.{meaning_of, next_member};

/// What a response that was read whole means.
#[derive(Clone, Copy, Debug, PartialEq, Eq)]
pub enum ReplyMeaning {
    /// Its body is the answer.
    Answer,
    /// The token is none any more: with a new one the same is asked again.
    EndedToken,
    /// Nothing is known of what was asked: it may have been done, or be done yet. The next member is asked the same.
    Undecided,
}

/// What a response with this status means. Only a 200 decides: a member that has lost its majority answers 503 to what
/// is done all the same once the majority is back.
pub fn meaning_of(status: u16) -> ReplyMeaning
    ensures { result ≡ meaning_of status }
{
    match status {
        200 => ReplyMeaning::Answer,
        401 => ReplyMeaning::EndedToken,
        _ => ReplyMeaning::Undecided,
    }
}

/// Whether a token is asked for before anything else.
pub fn needs_token(has_user: bool, has_token: bool) -> bool
    ensures { result ≡ (has_user && not has_token) }
{
    has_user && !has_token
}

/// Which of so many members is asked after the one with this number, counted from 0.
pub fn next_member(current: usize, count: usize) -> usize
    ensures value { result ≡ next_member current count }
    ensures within { 0 < count → result < count }
{
    if current < count && current + 1 < count {
        current + 1
    } else {
        0
    }
}
