//! Degrees: how a number's text is read as units of 10^-7 degree, and how units are printed.
#![tactic(auto, unfolding(crate::specs::Computed::numbers))]

ghost use Rattle.std.specs.Prelude.{◌≡◌, ◌++◌, replicate, codes, pos, neg_ℤ, Ok, Err};
ghost use Rattle.mds_text.specs.Fault.{out_of_range, bad_number};
ghost use Rattle.mds_text.specs.Numbers.{units_of};
ghost use Rattle.mds_text.specs.Printed.{printed_degrees};

/// A coordinate with more decimals than units have is rounded to the nearest unit, and half a unit
/// away from zero, whatever its sign.
pub fn rounding()
    ensures half_below_zero { units_of (codes "-118.24370005") ≡ Ok (neg_ℤ (pos 1182437001)) }
    ensures half_above_zero { units_of (codes "118.24370005") ≡ Ok (pos 1182437001) }
    ensures less_than_half { units_of (codes "-118.243700049") ≡ Ok (neg_ℤ (pos 1182437000)) }
    ensures half_of_one { units_of (codes "-0.00000005") ≡ Ok (neg_ℤ (pos 1)) }
{}

/// Exponents count, zero has no sign, and trailing zeros change nothing.
pub fn spellings()
    ensures least { units_of (codes "1e-7") ≡ Ok (pos 1) }
    ensures raised { units_of (codes "1.5E+1") ≡ Ok (pos 150000000) }
    ensures zero { units_of (codes "-0") ≡ Ok (pos 0) }
    ensures zeros { units_of (codes "1.50") ≡ Ok (pos 15000000) }
{}

/// The limit is 180 degrees in either direction, and it is the rounded number that counts.
pub fn range()
    ensures end { units_of (codes "-180") ≡ Ok (neg_ℤ (pos 1800000000)) }
    ensures rounded_to_the_end { units_of (codes "180.00000004") ≡ Ok (pos 1800000000) }
    ensures rounded_past_the_end { units_of (codes "180.00000005") ≡ Err out_of_range }
    ensures great { units_of (codes "-1e999") ≡ Err out_of_range }
{}

/// An exponent has at most three digits and a text at most 64 bytes.
pub fn lengths()
    ensures exponent { units_of (codes "1e1000") ≡ Err bad_number }
    ensures zero_before { units_of (codes "1e0001") ≡ Err bad_number }
    ensures sixty_four_bytes { units_of (codes "0." ++ replicate 62 48) ≡ Ok (pos 0) }
    ensures one_more { units_of (codes "0." ++ replicate 63 48) ≡ Err bad_number }
{}

/// A text that the grammar of numbers doesn't allow is no number.
pub fn no_numbers()
    ensures zero_in_front { units_of (codes "01") ≡ Err bad_number }
    ensures plus_in_front { units_of (codes "+1") ≡ Err bad_number }
    ensures nothing_before_the_point { units_of (codes ".5") ≡ Err bad_number }
    ensures nothing_behind_the_point { units_of (codes "1.") ≡ Err bad_number }
    ensures space { units_of (codes " 1") ≡ Err bad_number }
    ensures nothing { units_of (codes "") ≡ Err bad_number }
{}

/// Units are printed as degrees, without trailing zeros.
pub fn printing()
    ensures all_decimals { printed_degrees (neg_ℤ (pos 1182437001)) ≡ codes "-118.2437001" }
    ensures one_unit { printed_degrees (pos 1) ≡ codes "0.0000001" }
    ensures few_units { printed_degrees (neg_ℤ (pos 5)) ≡ codes "-0.0000005" }
    ensures one_decimal { printed_degrees (pos 15000000) ≡ codes "1.5" }
    ensures whole_degrees { printed_degrees (neg_ℤ (pos 1800000000)) ≡ codes "-180" }
    ensures none { printed_degrees (pos 0) ≡ codes "0" }
{}
