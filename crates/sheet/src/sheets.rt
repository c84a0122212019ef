// Making parts from sheets, and what such a part answers.
ghost use Rattle.std.specs.Prelude.{◌≡◌, ◌<◌, ◌≤◌, ◌==◌, IfSome, length, is_ok, if◌then◌else◌, Ok, Err, Decides};
ghost use Rattle.std.specs.List.{position};
ghost use Rattle.part.specs.declared.fault.PartFault.TheVariants.{BrokenDuty};
ghost use Rattle.part.specs.Duties.{Duties};
ghost use Rattle.sheet.specs.Sheets.{takes, part_of};
ghost use Rattle.sheet.specs.SheetsShown.{sheet_says, part_says, answered};
ghost use Rattle.part.proofs.DutyTest.{duties_kept};

use crate::duties::keeps_duties;
use crate::sheet::{Sheet, SheetPart};
use bank::{FieldValue, Place};
use part::{Band, Part, PartFault, Row, RowNumber, ShortList};

// The place of the first row with a value, or none.
fn index_of(rows: &[Row], value: FieldValue) -> Option<usize>
    ensures place { result ≡ position (λ r. r.value.0 == value.0) rows.now }
    ensures within { IfSome result (λ i. i < length rows.now) }
{
    rows.iter().position(|row| row.value == value)
}

impl SheetPart {
    // The part that a sheet describes. A sheet that breaks a duty or has over 8 rows is refused, and no other.
    pub fn from_sheet(sheet: &Sheet) -> Result<SheetPart, PartFault>
        ensures answer { answered result ≡ part_of (sheet_says sheet.now) }
        ensures exactly { Decides (is_ok result) (Duties (sheet_says sheet.now) × (length (sheet_says sheet.now).rows ≤ 8)) }
    {
        let spare = Row {
            value: FieldValue(0),
            parent: 0,
            n: 1,
            d: 1,
        };
        let Some(rows) = ShortList::from_slice(spare, sheet.rows) else {
            return Err(PartFault::BrokenDuty);
        };
        if !keeps_duties(sheet) {
            return Err(PartFault::BrokenDuty);
        }
        Ok(SheetPart {
            number: sheet.number,
            source: sheet.source,
            rows,
            field: sheet.field,
            gate: sheet.gate,
            marks: sheet.marks,
            band: sheet.band,
        })
    }

    // Fills a place of a list with the part that a sheet describes; a refusal leaves what stands there.
    pub fn fill(&mut self, sheet: &Sheet) -> Result<(), PartFault>
        ensures answer { result ≡ (if takes (sheet_says sheet.now) then Ok tt else Err BrokenDuty) }
        ensures after { part_says self.new ≡ (if takes (sheet_says sheet.now) then sheet_says sheet.now else part_says self.old) }
        ensures untouched { result ≡ Err BrokenDuty → self.new ≡ self.old }
        ensures exactly { Decides (is_ok result) (Duties (sheet_says sheet.now) × (length (sheet_says sheet.now).rows ≤ 8)) }
    {
        let part = SheetPart::from_sheet(sheet)?;
        *self = part;
        Ok(())
    }
}

impl Part for SheetPart {
    ghost meaning = { part_says };

    ghost duties = { λ p. duties_kept (part_says p) p.keeps };

    fn number(&self) -> u8 {
        self.number
    }

    fn source_rate(&self) -> Option<u32> {
        self.source
    }

    fn row_count(&self) -> u16 {
        self.rows.len() as u16
    }

    fn row(&self, at: RowNumber) -> Option<Row> {
        self.rows.as_slice().get(at.0 as usize).copied()
    }

    fn row_of(&self, value: FieldValue) -> Option<RowNumber> {
        index_of(self.rows.as_slice(), value).map(|at| RowNumber(at as u16))
    }

    fn rate_field(&self) -> Option<Place> {
        self.field
    }

    fn gate_bit(&self) -> Option<Place> {
        self.gate
    }

    fn lift(&self) -> bool {
        self.marks.lift
    }

    fn still(&self) -> bool {
        self.marks.still
    }

    fn band(&self) -> Band {
        self.band
    }
}
