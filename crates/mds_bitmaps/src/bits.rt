//! The first set bit of a bitmap of rules.
ghost use Rattle.std.specs.Prelude.{◌≡◌, ◌≤◌, ◌<◌, ◌++◌, ◌∷◌, [], ℕ, List, Bool, IfSome, length};
ghost use Rattle.mds_geometry.specs.declared.position.Position.{Position};
ghost use Rattle.mds_policy.specs.Policy.{Policy};
ghost use Rattle.mds_match.specs.declared.local.Local.{Local as Time};
ghost use Rattle.mds_match.specs.Matching.{first};
ghost use Rattle.mds_match.specs.Row.{Row};
ghost use Rattle.mds_bitmaps.specs.Masks.{HasBits, IsMask, IsOpenMask};

/// The most rules of a policy for which bitmaps are made: the bits of a word.
pub const MOST_RULES: usize = 64;

/// The index of the first rule that is both in `active`, the bitmap of the open rules, and in
/// `bitmap`, that of a vehicle, if there is one (MDS 2.0 Policy, order of operations).
pub fn first_of(active: u64, mask: u64) -> Option<usize>
    ensures within { IfSome result (λ n. n < 64) }
    ensures first { (policy : Policy) (polygons : List ℕ → List (List (List Position))) (row : Row) (local : Time) →
        length policy.rules ≤ 64 → IsOpenMask policy local active → IsMask policy polygons row mask →
        result ≡ first policy polygons row local }
{
    let met = active & mask;
    if met == 0 {
        return None;
    }
    Some(met.trailing_zeros() as usize)
}

/// The word with the bit of this number set, where `is_set`.
pub(crate) fn with_bit(word: u64, number: usize, is_set: bool) -> u64
    requires { number < 64 }
    ensures { (bits : List Bool) → length bits ≡ number → HasBits bits word → HasBits (bits ++ is_set ∷ []) result }
{
    if is_set { word | 1u64 << number } else { word }
}
