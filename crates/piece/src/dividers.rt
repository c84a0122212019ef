// The rows of a divider.
ghost use Rattle.std.specs.Prelude.{◌≡◌, ◌≤◌};
ghost use Rattle.piece.specs.RowNumbers.{first_value};
ghost use Rattle.piece.specs.Shown.{div_kind};

use crate::rows::Rows;
use crate::shapes::DivPiece;
use bank::FieldValue;
use part::{Row, RowNumber};

impl DivPiece {
    // The value of row 0.
    fn first(&self) -> u16
        ensures { (result ≡ first_value self.now.style) × (result ≤ 1) }
    {
        self.style as u16
    }
}

impl Rows for DivPiece {
    ghost kind = { div_kind };

    fn row_count(&self) -> u16 {
        (1u16 << self.field.width) - self.first()
    }

    fn row(&self, at: RowNumber) -> Option<Row> {
        if at.0 >= self.row_count() {
            return None;
        }
        Some(Row {
            value: FieldValue((at.0 + self.first()) as u32),
            parent: self.parent,
            n: 1,
            d: at.0 + 1,
        })
    }

    fn row_of(&self, value: FieldValue) -> Option<RowNumber> {
        let first = self.first() as u32;
        if value.0 < first || value.0 - first >= self.row_count() as u32 {
            return None;
        }
        Some(RowNumber((value.0 - first) as u16))
    }
}
