// What every part is. Code above knows a part by its meaning alone.
ghost use Rattle.std.specs.Prelude.{◌≡◌, length};
ghost use Rattle.part.specs.Meanings.{Meaning, row_at, row_named};
ghost use Rattle.part.specs.Duties.{Duties};

use crate::row::{Band, Row, RowNumber};
use bank::{FieldValue, Place};

pub trait Part {
    // Everything that the part says of its clock, in one record.
    ghost meaning: { Self → Meaning };

    // The number of the clock.
    fn number(&self) -> u8
        ensures { result ≡ (meaning self.now).number };

    // The rate of a source in hertz, or none.
    fn source_rate(&self) -> Option<u32>
        ensures { result ≡ (meaning self.now).source };

    fn row_count(&self) -> u16
        ensures { result ≡ length (meaning self.now).rows };

    // The row of a number, or none beyond the last.
    fn row(&self, at: RowNumber) -> Option<Row>
        ensures { result ≡ row_at (meaning self.now) at.0 };

    // The row that a field value names, or none.
    fn row_of(&self, value: FieldValue) -> Option<RowNumber>
        ensures { result ≡ row_named (meaning self.now) value.0 };

    fn rate_field(&self) -> Option<Place>
        ensures { result ≡ (meaning self.now).field };

    fn gate_bit(&self) -> Option<Place>
        ensures { result ≡ (meaning self.now).gate };

    // Whether a rate request may change clocks above this one.
    fn lift(&self) -> bool
        ensures { result ≡ (meaning self.now).marks.lift };

    // Whether the clock stays as it is while it is needed.
    fn still(&self) -> bool
        ensures { result ≡ (meaning self.now).marks.still };

    // The rates that the clock may have.
    fn band(&self) -> Band
        ensures { result ≡ (meaning self.now).band };

    ghost duties: { (p : Self) → Duties (meaning p) };
}
