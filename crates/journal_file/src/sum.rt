//! The checksum of a record.
ghost use Rattle.std.specs.Prelude.{◌≡◌};
ghost use Rattle.journal_file.specs.Sum.{sum_over};

use std::hash::{DefaultHasher, Hasher};

/// The checksum of a payload after data with the checksum `before`, which is 0 at the beginning of a file: SipHash-1-3
/// with both keys 0. It detects torn and stray writes, not deliberate forgery.
#[tactic(auto, unfolding(crate::specs::Sum::sum_over))]
pub fn sum_over(before: u64, text: &[u8]) -> u64
    ensures { result ≡ sum_over before text.now }
{
    let mut hasher = DefaultHasher::new();
    hasher.write(&before.to_be_bytes());
    hasher.write(text);
    hasher.finish()
}
