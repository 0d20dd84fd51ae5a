//! Pieces of a page of HTML: markup as it is, and values, whose texts are escaped.
ghost use Rattle.std.specs.Prelude.{◌≡◌, ◌∷◌, ◌++◌, [], map, OnOk};
ghost use Rattle.cli_report.specs.Cells.{cell_view};
ghost use Rattle.cli_report.specs.Pieces.{IsPiece, IsWritten, markup, piece_view, value};
ghost use Rattle.cli_report.specs.Texts.{Appends, Spells};

use crate::cell::{CellValue, plain_text};
use crate::escape::push_escaped;
use mds_match::Zone;
use std::alloc::AllocError;

/// A piece of a page. Contracts see a `Piece`.
#[derive(Clone, Copy)]
pub(crate) enum PagePiece<'a> {
    /// Markup of the program's.
    Markup(&'a str),
    /// Markup that was worked out.
    Drawn(&'a [u8]),
    /// A value, whose text is escaped.
    Value(CellValue<'a>),
}

/// Appends a value.
fn push_value(out: &mut Vec<u8>, zone: &Zone, cell: &CellValue<'_>) -> Result<(), AllocError>
    ensures { OnOk result (Appends (IsPiece zone.now (value (cell_view cell.now))) out.old.items out.new.items) }
{
    let plain = plain_text(*out.allocator(), zone, cell)?;
    push_escaped(out, &plain)
}

/// Appends bytes as they are.
///
/// # Errors
///
/// Out of memory.
pub(crate) fn push_bytes(out: &mut Vec<u8>, bytes: &[u8]) -> Result<(), AllocError>
    ensures { OnOk result (out.new.items ≡ out.old.items ++ bytes.now) }
{
    out.extend_from_slice(bytes)
}

/// Appends a piece.
fn push_piece(out: &mut Vec<u8>, zone: &Zone, piece: &PagePiece<'_>) -> Result<(), AllocError>
    ensures { OnOk result (Appends (IsPiece zone.now (piece_view piece.now)) out.old.items out.new.items) }
{
    match piece {
        PagePiece::Markup(text) => push_bytes(out, text.as_bytes()),
        PagePiece::Drawn(text) => push_bytes(out, text),
        PagePiece::Value(cell) => push_value(out, zone, cell),
    }
}

/// Appends pieces, one behind the other.
#[tactic(auto, using(crate::proofs::Spelled::none_yet))]
fn push_each(out: &mut Vec<u8>, zone: &Zone, pieces: &[PagePiece<'_>]) -> Result<(), AllocError>
    ensures { OnOk result (Appends (Spells (λ p. IsPiece zone.now (piece_view p)) pieces.now)
        out.old.items out.new.items) }
{
    for piece in pieces {
        push_piece(out, zone, piece)?;
    }
    Ok(())
}

/// Appends pieces, one behind the other.
///
/// # Errors
///
/// Out of memory. Then a part may have been appended.
pub(crate) fn push_pieces(
    out: &mut Vec<u8>,
    zone: &Zone,
    pieces: &[PagePiece<'_>],
) -> Result<(), AllocError>
    ensures { OnOk result (Appends (IsWritten zone.now (map piece_view pieces.now)) out.old.items out.new.items) }
{
    push_each(out, zone, pieces)
}

/// Appends markup.
///
/// # Errors
///
/// Out of memory.
pub(crate) fn push_markup(out: &mut Vec<u8>, zone: &Zone, text: &str) -> Result<(), AllocError>
    ensures { OnOk result (Appends (IsWritten zone.now (markup text.now ∷ [])) out.old.items out.new.items) }
{
    push_pieces(out, zone, &[PagePiece::Markup(text)])
}
