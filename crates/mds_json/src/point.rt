//! A quick test for numbers that aren't plain.
ghost use Rattle.std.specs.Prelude.{◌≡◌, true, IsTrue};
ghost use Rattle.json.specs.Print.{IsNumber};
ghost use Rattle.mds_text.specs.Quoting.{is_quoted};

/// Whether one of the second to fifth bytes of a number is a decimal point, so that it isn't plain.
#[inline(always)]
pub(crate) fn has_point(number: &[u8]) -> bool
    requires { IsNumber number.now }
    ensures { IsTrue result → is_quoted number.now ≡ true }
{
    is_point(number, 2) || is_point(number, 3) || is_point(number, 1) || is_point(number, 4)
}

/// Whether the byte at this place of a number is a decimal point, so that it isn't plain.
#[inline(always)]
fn is_point(number: &[u8], place: usize) -> bool
    requires { IsNumber number.now }
    ensures { IsTrue result → is_quoted number.now ≡ true }
{
    place < number.len() && number[place] == b'.'
}
