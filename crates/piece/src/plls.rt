// The rows of a PLL.
ghost use Rattle.std.specs.Prelude.{◌≡◌, ◌-◌, ◌^◌, ◌≤◌};
ghost use Rattle.piece.specs.Shown.{pll_kind};

use crate::rows::Rows;
use crate::shapes::PllPiece;
use bank::FieldValue;
use part::{Row, RowNumber};

// The greatest number of so many bits.
fn most(bits: u8) -> u16
    requires { bits ≤ 8 }
    ensures { result ≡ 2 ^ bits - 1 }
{
    (1u16 << bits) - 1
}

impl Rows for PllPiece {
    ghost kind = { pll_kind };

    fn row_count(&self) -> u16 {
        most(self.nw) * most(self.dw)
    }

    // N counts up once D has gone through its values.
    fn row(&self, at: RowNumber) -> Option<Row> {
        if at.0 >= self.row_count() {
            return None;
        }
        let all_d = most(self.dw);
        let n = at.0 / all_d + 1;
        let d = at.0 % all_d + 1;
        Some(Row {
            value: FieldValue(((n as u32) << self.dw) + d as u32),
            parent: self.parent,
            n,
            d,
        })
    }

    fn row_of(&self, value: FieldValue) -> Option<RowNumber> {
        let n = value.0 >> self.dw;
        let d = value.0 % (1u32 << self.dw);
        if n == 0 || d == 0 || n > most(self.nw) as u32 {
            return None;
        }
        let at = (n - 1) * most(self.dw) as u32 + (d - 1);
        Some(RowNumber(at as u16))
    }
}
