//! The bitmap of a policy's rules that are open at a local time.
ghost use Rattle.std.specs.Prelude.{◌≤◌, length};
ghost use Rattle.mds_policy.specs.Policy.{policy_document};
ghost use Rattle.mds_bitmaps.specs.Masks.{IsOpenMask};

use crate::bits::with_bit;
use mds_match::{Local, open_at};
use mds_policy::Policy;

/// The bitmap of the rules of a policy that are open at a local time.
pub fn open_bitmap(policy: &Policy, local: Local) -> u64
    requires { length (policy_document policy.now).rules ≤ 64 }
    ensures { IsOpenMask (policy_document policy.now) local result }
{
    let mut mask = 0;
    for (number, rule) in policy.rules().iter().enumerate() {
        mask = with_bit(mask, number, open_at(rule, local));
    }
    mask
}
