//! Laws of numbers and of quoting. Each function's contract is the law; the functions themselves do
//! nothing.
ghost use Rattle.mds_text.specs.Laws.{HalvesGoAwayFromZero, PiecesAreTheText, PrintedIsRead, WithinHalfAUnit};

/// `units_of` reads what `print_units` prints of a coordinate as that coordinate.
pub fn printed_is_read()
    ensures { PrintedIsRead }
{}

/// The pieces into which a text is cut are the whole text: `quote_numbers` adds quotation marks and
/// nothing else.
pub fn pieces_are_the_text()
    ensures { PiecesAreTheText }
{}

/// The absolute value that `units_of` gives a number is within half a unit of the exact one; of two
/// that are equally near, it is the greater.
pub fn within_half_a_unit()
    ensures near { WithinHalfAUnit }
    ensures away { HalvesGoAwayFromZero }
{}
