// The rows of a mux.
ghost use Rattle.std.specs.Prelude.{◌≡◌, ◌<◌, ◌==◌, length, if◌then◌else◌, Some, None, nat_lt};
ghost use Rattle.std.specs.List.{find, range_with_len};
ghost use Rattle.part.specs.Lists.{listed};
ghost use Rattle.piece.specs.Pieces.{mux_value};
ghost use Rattle.piece.specs.Shown.{mux_kind};

use crate::rows::Rows;
use crate::shapes::MuxPiece;
use crate::style::MuxStyle;
use bank::FieldValue;
use part::{Row, RowNumber};

impl MuxStyle {
    // The field value of the parent with an index, or none where that may have over 32 bits.
    pub fn value(self, index: u8) -> Option<u32>
        ensures { result ≡ (if nat_lt index 32 then Some (mux_value self index) else None) }
    {
        if index >= 32 {
            return None;
        }
        match self {
            MuxStyle::Plain => Some(index as u32),
            MuxStyle::Bit => Some(1u32 << index),
        }
    }
}

impl MuxPiece {
    // The field value of a parent that is there.
    fn value(&self, index: u8) -> u32
        requires { index < 8 }
        ensures { result ≡ mux_value self.now.style index }
    {
        self.style.value(index).unwrap()
    }

    // The first index with a field value, or none. Not inlined: its loop is unrolled, and would keep `row_of` of every kind of piece from
    // being inlined.
    #[inline(never)]
    fn index_of(&self, value: u32) -> Option<u8>
        ensures { result ≡ find (λ i. mux_value self.now.style i == value) (range_with_len 0 (length (listed self.now.parents))) }
    {
        (0..self.parents.len() as u8).find(|i| self.value(*i) == value)
    }
}

impl Rows for MuxPiece {
    ghost kind = { mux_kind };

    fn row_count(&self) -> u16 {
        self.parents.len() as u16
    }

    fn row(&self, at: RowNumber) -> Option<Row> {
        let parent = *self.parents.as_slice().get(at.0 as usize)?;
        Some(Row {
            value: FieldValue(self.value(at.0 as u8)),
            parent,
            n: 1,
            d: 1,
        })
    }

    fn row_of(&self, value: FieldValue) -> Option<RowNumber> {
        self.index_of(value.0).map(|i| RowNumber(i as u16))
    }
}
