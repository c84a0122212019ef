// What the kinds of piece that have rows share.
ghost use Rattle.std.specs.Prelude.{◌≡◌, length};
ghost use Rattle.std.specs.List.{slice_get};
ghost use Rattle.part.specs.Meanings.{named};
ghost use Rattle.piece.specs.Pieces.{Kind, rows_of};

use bank::FieldValue;
use part::{Row, RowNumber};

// A piece with rows: each kind but a source.
pub(crate) trait Rows {
    // The kind of the piece, by which its rows are defined.
    ghost kind: { Self → Kind };

    fn row_count(&self) -> u16
        ensures { result ≡ length (rows_of (kind self.now)) };

    // The row of a number, or none beyond the last.
    fn row(&self, at: RowNumber) -> Option<Row>
        ensures { result ≡ slice_get (rows_of (kind self.now)) at.0 };

    // The row that a field value names, or none.
    fn row_of(&self, value: FieldValue) -> Option<RowNumber>
        ensures { result ≡ named (rows_of (kind self.now)) value.0 };
}
