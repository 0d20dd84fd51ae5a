//! Whether two servers' answers are equal.
ghost use Rattle.std.specs.Prelude.{◌≡◌, ◌↔◌, IsTrue};

use mds_desk::SharedReply;

/// Whether two answers have the same status, and the same body byte for byte.
fn is_same(one: &SharedReply, other: &SharedReply) -> bool
    ensures { IsTrue result ↔ (one.now ≡ other.now) }
{
    one.status() == other.status() && one.body() == other.body()
}

/// Whether all answers of two servers to the same questions are equal.
pub(crate) fn are_same(ones: &[SharedReply], others: &[SharedReply]) -> bool
    ensures { IsTrue result ↔ (ones.now ≡ others.now) }
{
    if ones.len() != others.len() {
        return false;
    }
    for place in 0..ones.len() {
        if !is_same(&ones[place], &others[place]) {
            return false;
        }
    }
    true
}
