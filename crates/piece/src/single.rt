// The one row of a gate, and of a fixed ratio.
ghost use Rattle.std.specs.Prelude.{◌≡◌, eqb, if◌then◌else◌, Some, None};
ghost use Rattle.std.specs.List.{slice_get};
ghost use Rattle.piece.specs.Pieces.{rows_from};
ghost use Rattle.piece.specs.Shown.{gate_kind, fixed_kind};

use crate::rows::Rows;
use crate::shapes::{FixPiece, GatePiece};
use bank::FieldValue;
use part::{Row, RowNumber};

// The one row of a part without a rate field, which the value 0 names.
fn only_row(at: RowNumber, parent: u8, n: u16, d: u16) -> Option<Row>
    ensures { result ≡ slice_get (rows_from (λ _. Some (record { parent = parent; n = n; d = d })) 0 1) at.0 }
{
    let row = Row {
        value: FieldValue(0),
        parent,
        n,
        d,
    };
    (at.0 == 0).then_some(row)
}

fn only_row_of(value: FieldValue) -> Option<RowNumber>
    ensures { result ≡ (if eqb 0 value.0 then Some (record { 0 = 0 }) else None) }
{
    (value.0 == 0).then_some(RowNumber(0))
}

impl Rows for GatePiece {
    ghost kind = { gate_kind };

    fn row_count(&self) -> u16 {
        1
    }

    fn row(&self, at: RowNumber) -> Option<Row> {
        only_row(at, self.parent, 1, 1)
    }

    fn row_of(&self, value: FieldValue) -> Option<RowNumber> {
        only_row_of(value)
    }
}

impl Rows for FixPiece {
    ghost kind = { fixed_kind };

    fn row_count(&self) -> u16 {
        1
    }

    fn row(&self, at: RowNumber) -> Option<Row> {
        only_row(at, self.parent, self.n, self.d)
    }

    fn row_of(&self, value: FieldValue) -> Option<RowNumber> {
        only_row_of(value)
    }
}
