// What holds of the rows of every part, as calls that look them up there and back.
ghost use Rattle.std.specs.Prelude.{◌≡◌, length, is_some, if◌then◌else◌, Some, None, nat_lt};
ghost use Rattle.part.specs.Meanings.{row_named};

use crate::part::Part;
use crate::row::RowNumber;
use bank::FieldValue;

// The row that the value of a row names: that row, or none beyond the last.
pub fn row_again<P: Part>(part: &P, at: RowNumber) -> Option<RowNumber>
    ensures { result ≡ (if nat_lt at.0 (length (P.Part.meaning part.now).rows) then Some at else None) }
{
    let row = part.row(at)?;
    part.row_of(row.value)
}

// The value of the row that a value names: that value, or none where no row has it.
pub fn value_again<P: Part>(part: &P, value: FieldValue) -> Option<FieldValue>
    ensures { result ≡ (if is_some (row_named (P.Part.meaning part.now) value.0) then Some value else None) }
{
    let at = part.row_of(value)?;
    let row = part.row(at)?;
    Some(row.value)
}
