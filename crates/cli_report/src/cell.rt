//! What a cell of a report tells, and its text.
ghost use Rattle.std.specs.Prelude.{◌≡◌, ◌+◌, ◌/◌, IfOk};
ghost use Rattle.std.specs.Fmt.{decimal};
ghost use Rattle.uuid.specs.Text.{hyphenated_text, lower};
ghost use Rattle.cli_calendar.specs.Clocks.{clock_at};
ghost use Rattle.cli_calendar.specs.Texts.{IsDay};
ghost use Rattle.cli_report.specs.Cells.{IsLocalIf, IsText, cell_view, number_text_if};

use cli_calendar::{clock_at, date_text, local_text, utc_text};
use mds_match::Zone;
use mds_text::{Id, Moment};
use std::alloc::{AllocError, Global};

/// The seconds of a day.
const DAY_SECONDS: u64 = 86_400;

/// The value of a cell: what it tells. Contracts see a `Cell`.
#[derive(Clone, Copy)]
pub(crate) enum CellValue<'a> {
    /// A text.
    Text(&'a [u8]),
    /// An identifier.
    Id(Id),
    /// A number.
    Number(u64),
    /// A place among others that is counted from 0, as a number that is counted from 1.
    Place(usize),
    /// A bound, where there is one.
    Bound(Option<u32>),
    /// A number, where there is one.
    NumberIf(Option<u64>),
    /// A moment in UTC.
    Utc(Moment),
    /// A moment in the city's zone, where there is one.
    Local(Option<Moment>),
    /// The local day of a moment.
    Day(Moment),
}

/// The text of bytes.
fn copy_of(alloc: Global, bytes: &[u8]) -> Result<Vec<u8>, AllocError>
    ensures { IfOk result (λ text. text.items ≡ bytes.now) }
{
    let mut text = Vec::new(alloc);
    text.extend_from_slice(bytes)?;
    Ok(text)
}

/// A number in decimal digits.
fn number_text(alloc: Global, number: u64) -> Result<Vec<u8>, AllocError>
    ensures { IfOk result (λ text. text.items ≡ decimal number) }
{
    Ok(number.to_string(alloc)?.into_bytes())
}

/// A place that is counted from 0, counted from 1, in decimal digits.
fn place_text(alloc: Global, place: usize) -> Result<Vec<u8>, AllocError>
    ensures { IfOk result (λ text. text.items ≡ decimal (place + 1)) }
{
    let counted = place as u128 + 1;
    Ok(counted.to_string(alloc)?.into_bytes())
}

/// An identifier with hyphens, in lower case.
pub(crate) fn id_text(alloc: Global, id: &Id) -> Result<Vec<u8>, AllocError>
    ensures { IfOk result (λ text. text.items ≡ hyphenated_text lower id.now) }
{
    Ok(id.print(alloc)?.into_bytes())
}

/// A bound in decimal digits; nothing where there is none.
fn bound_text(alloc: Global, bound: &Option<u32>) -> Result<Vec<u8>, AllocError>
    ensures { IfOk result (λ text. text.items ≡ number_text_if bound.now) }
{
    match bound {
        Some(bound) => number_text(alloc, u64::from(*bound)),
        None => Ok(Vec::new(alloc)),
    }
}

/// A number in decimal digits; nothing where there is none.
fn number_text_if(alloc: Global, number: &Option<u64>) -> Result<Vec<u8>, AllocError>
    ensures { IfOk result (λ text. text.items ≡ number_text_if number.now) }
{
    match number {
        Some(number) => number_text(alloc, *number),
        None => Ok(Vec::new(alloc)),
    }
}

/// A moment in a zone; nothing where there is none.
fn local_text_if(alloc: Global, zone: &Zone, at: &Option<Moment>) -> Result<Vec<u8>, AllocError>
    ensures { IfOk result (λ text. IsLocalIf zone.now at.now text.items) }
{
    match at {
        Some(at) => local_text(alloc, zone, *at),
        None => Ok(Vec::new(alloc)),
    }
}

/// The local day of a moment.
pub(crate) fn day_text(alloc: Global, zone: &Zone, at: Moment) -> Result<Vec<u8>, AllocError>
    ensures { IfOk result (λ text. IsDay (clock_at zone.now at / 86400) text.items) }
{
    date_text(alloc, clock_at(zone, at) / DAY_SECONDS)
}

/// The text of a cell.
pub(crate) fn plain_text(
    alloc: Global,
    zone: &Zone,
    cell: &CellValue<'_>,
) -> Result<Vec<u8>, AllocError>
    ensures { IfOk result (λ text. IsText zone.now (cell_view cell.now) text.items) }
{
    match cell {
        CellValue::Text(bytes) => copy_of(alloc, bytes),
        CellValue::Id(id) => id_text(alloc, id),
        CellValue::Number(number) => number_text(alloc, *number),
        CellValue::Place(place) => place_text(alloc, *place),
        CellValue::Bound(bound) => bound_text(alloc, bound),
        CellValue::NumberIf(number) => number_text_if(alloc, number),
        CellValue::Utc(at) => utc_text(alloc, *at),
        CellValue::Local(at) => local_text_if(alloc, zone, at),
        CellValue::Day(at) => day_text(alloc, zone, *at),
    }
}
