//! What keeps a spreadsheet from taking a text as a formula.
ghost use Rattle.std.specs.Prelude.{◌≡◌, IfOk};
ghost use Rattle.cli_report.specs.Csv.{begins_formula, guarded, mark};

use std::alloc::{AllocError, Global};

/// Whether a text that begins with this byte may be taken as a formula by a spreadsheet.
fn begins_formula(byte: u8) -> bool
    ensures { result ≡ begins_formula byte }
{
    matches!(byte, b'=' | b'+' | b'-' | b'@' | b'\t' | b'\r')
}

/// What stands in front of a text so that it isn't taken as a formula.
fn mark_of(text: &[u8]) -> &'static [u8]
    ensures { result.now ≡ mark text.now }
{
    match text.first() {
        Some(byte) if begins_formula(*byte) => b"'",
        _ => b"",
    }
}

/// A text with an apostrophe in front where it may be taken as a formula.
pub(crate) fn guard_text(alloc: Global, text: &[u8]) -> Result<Vec<u8>, AllocError>
    ensures { IfOk result (λ field. field.items ≡ guarded text.now) }
{
    let mut field = Vec::new(alloc);
    field.extend_from_slice(mark_of(text))?;
    field.extend_from_slice(text)?;
    Ok(field)
}
