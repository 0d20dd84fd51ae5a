//! The rows of a report.
ghost use Rattle.std.specs.Prelude.{◌≡◌, IfOk, OnOk, map};
ghost use Rattle.csv.specs.Records.{fields_of};
ghost use Rattle.csv.specs.Writing.{row_text};
ghost use Rattle.cli_report.specs.Cells.{AreFields, IsField, IsRow, cell_view};
ghost use Rattle.cli_report.specs.Csv.{row_style};
ghost use Rattle.cli_report.specs.Texts.{Appends};

use crate::cell::{CellValue, plain_text};
use crate::formula::guard_text;
use csv::{ByteRecord, Terminator, WriterBuilder};
use mds_match::Zone;
use std::alloc::{AllocError, Global};

/// The text of a cell as a field of its row.
fn field_of(alloc: Global, zone: &Zone, cell: &CellValue<'_>) -> Result<Vec<u8>, AllocError>
    ensures { IfOk result (λ field. IsField zone.now (cell_view cell.now) field.items) }
{
    let text = plain_text(alloc, zone, cell)?;
    guard_text(alloc, &text)
}

/// A field for each of these cells, in their order.
fn gather_fields(
    alloc: Global,
    zone: &Zone,
    cells: &[CellValue<'_>],
) -> Result<ByteRecord, AllocError>
    ensures { IfOk result (λ row. AreFields zone.now (map cell_view cells.now) (fields_of row)) }
{
    let mut fields = ByteRecord::new(alloc);
    for cell in cells {
        let field = field_of(alloc, zone, cell)?;
        fields.push_field(&field)?;
    }
    Ok(fields)
}

/// The row of these fields. A writer over a vector fails only where memory runs out.
fn write_row(alloc: Global, fields: &ByteRecord) -> Result<Vec<u8>, AllocError>
    ensures { IfOk result (λ row. row.items ≡ row_text row_style (fields_of fields.now)) }
{
    let mut writer = WriterBuilder::new()
        .terminator(Terminator::CRLF)
        .from_writer(Vec::new(alloc));
    let Ok(()) = writer.write_byte_record(fields) else {
        return Err(AllocError);
    };
    match writer.into_inner() {
        Ok(row) => Ok(row),
        Err(_) => Err(AllocError),
    }
}

/// Appends the row of these cells.
///
/// # Errors
///
/// Out of memory. Then nothing has been appended.
pub(crate) fn push_row(
    out: &mut Vec<u8>,
    zone: &Zone,
    cells: &[CellValue<'_>],
) -> Result<(), AllocError>
    ensures { OnOk result (Appends (IsRow zone.now (map cell_view cells.now))
        out.old.items out.new.items) }
{
    let alloc = *out.allocator();
    let fields = gather_fields(alloc, zone, cells)?;
    let row = write_row(alloc, &fields)?;
    out.extend_from_slice(&row)?;
    Ok(())
}
