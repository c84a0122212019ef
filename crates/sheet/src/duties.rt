// Whether a sheet keeps the duties of a part.
ghost use Rattle.std.specs.Prelude.{◌≡◌, ◌^◌, nat_lt};
ghost use Rattle.part.specs.Duties.{row_keeps, rows_keep, values_rise, values_fit, field_keeps, bit_keeps, band_keeps, kind_keeps, keeps_duties};
ghost use Rattle.sheet.specs.SheetsShown.{sheet_says};

use crate::sheet::Sheet;
use bank::{FieldValue, Place};
use part::{Band, Row};

fn row_keeps(number: u8, row: Row) -> bool
    ensures { result ≡ row_keeps number row }
{
    row.n >= 1 && row.d >= 1 && row.parent < number
}

fn rows_keep(number: u8, rows: &[Row]) -> bool
    ensures { result ≡ rows_keep number rows.now }
{
    rows.iter().all(|row| row_keeps(number, *row))
}

// Whether field values rise strictly with the row number.
fn values_rise(rows: &[Row]) -> bool
    ensures { result ≡ values_rise rows.now }
{
    rows.is_sorted_by(|row, next| row.value.0 < next.value.0)
}

fn value_fits(width: u8, value: FieldValue) -> bool
    ensures { result ≡ nat_lt value.0 (2 ^ width) }
{
    width >= 32 || value.0 < 1u32 << width
}

// Whether every field value fits the rate field.
fn values_fit(width: u8, rows: &[Row]) -> bool
    ensures { result ≡ values_fit (2 ^ width) rows.now }
{
    rows.iter().all(|row| value_fits(width, row.value))
}

fn field_keeps(field: Option<Place>, rows: &[Row]) -> bool
    ensures { result ≡ field_keeps field rows.now }
{
    match field {
        Some(place) => values_fit(place.width, rows),
        None => matches!(rows, [row] if row.value.0 == 0),
    }
}

fn bit_keeps(gate: Option<Place>) -> bool
    ensures { result ≡ bit_keeps gate }
{
    gate.is_none_or(|place| place.width == 1)
}

fn band_keeps(band: Band) -> bool
    ensures { result ≡ band_keeps band }
{
    band.lo <= band.hi && band.hi <= 1 << 40
}

// What is asked of a source, and of every other part.
fn kind_keeps(sheet: &Sheet) -> bool
    ensures { result ≡ kind_keeps sheet.now.source (sheet_says sheet.now) }
{
    match sheet.source {
        Some(rate) => {
            let bare = sheet.rows.len() == 0 && sheet.field.is_none() && sheet.gate.is_none();
            rate >= 1 && bare && !sheet.marks.lift && !sheet.marks.still
        }
        None => {
            let count = sheet.rows.len();
            count >= 1 && count <= 16384 && field_keeps(sheet.field, sheet.rows)
        }
    }
}

pub(crate) fn keeps_duties(sheet: &Sheet) -> bool
    ensures { result ≡ keeps_duties (sheet_says sheet.now) }
{
    kind_keeps(sheet)
        && band_keeps(sheet.band)
        && bit_keeps(sheet.gate)
        && rows_keep(sheet.number, sheet.rows)
        && values_rise(sheet.rows)
}
