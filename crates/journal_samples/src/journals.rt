//! Which of several journals tells what stood at a moment.
ghost use Rattle.std.specs.Prelude.{◌≡◌, ◌≤◌, length};
ghost use Rattle.journal_samples.specs.Journals.{covered, is_covered};

use mds_text::Moment;

/// Whether a journal whose latest entry is of this moment has one that is later than another moment.
fn is_covered(last: &Option<Moment>, at: Moment) -> bool
    ensures { result ≡ is_covered last.now at }
{
    match last {
        Some(last) => at < *last,
        None => false,
    }
}

/// How many of these moments, from the first one on, a journal tells of that further journals stand behind, where its
/// latest entry is of the moment `last`: those that it has a later entry for.
pub fn count_covered(last: Option<Moment>, moments: &[Moment]) -> usize
    ensures count { result ≡ covered last moments.now }
    ensures within { result ≤ length moments.now }
{
    let mut count = 0;
    for at in moments {
        if !is_covered(&last, *at) {
            return count;
        }
        count += 1;
    }
    count
}
