// Board pieces are parts.
ghost use Rattle.std.specs.Prelude.{◌≡◌, codes};
ghost use Rattle.piece.specs.Pieces.{source, kind_word, row_read, marks_of, meaning_of};
ghost use Rattle.piece.specs.Shown.{kind_of, clock_of};
ghost use Rattle.words.specs.Spelling.{spelled};
ghost use Rattle.piece.specs.PieceDuties.{kind_duties};

use crate::rows::Rows;
use crate::shapes::{Piece, PieceKind, SrcPiece};
use bank::{FieldValue, Place};
use part::{Band, Marks, Part, Row, RowNumber};
use words::Name;

impl Piece {
    // What stands in the places of a list that nothing has filled yet: a source of 1 hertz with the name `_`.
    pub fn blank() -> Piece
        ensures { clock_of result ≡ record { number = 0; name = codes "_"; kind = source 1 } }
    {
        Piece {
            name: Name::blank(),
            kind: PieceKind::Src(SrcPiece { number: 0, rate: 1 }),
        }
    }

    // The word for the piece's kind in a board file.
    pub fn kind_word(&self) -> &'static str
        ensures { result.now ≡ kind_word (kind_of self.now.kind) }
    {
        match &self.kind {
            PieceKind::Src(_) => "src",
            PieceKind::Gate(_) => "gate",
            PieceKind::Fix(_) => "fix",
            PieceKind::Div(_) => "div",
            PieceKind::Mux(_) => "mux",
            PieceKind::Pll(_) => "pll",
        }
    }

    // The row that a field value reads as, with its parent and its ratio, or none.
    pub fn reading(&self, value: FieldValue) -> Option<Row>
        ensures { result ≡ row_read (kind_of self.now.kind) value.0 }
    {
        let at = self.row_of(value)?;
        self.row(at)
    }

    fn marks(&self) -> Marks
        ensures { result ≡ marks_of (kind_of self.now.kind) }
    {
        match &self.kind {
            PieceKind::Src(_) => Marks {
                lift: false,
                still: false,
            },
            PieceKind::Gate(p) => p.marks,
            PieceKind::Fix(p) => p.marks,
            PieceKind::Div(p) => p.marks,
            PieceKind::Mux(p) => p.marks,
            PieceKind::Pll(p) => p.marks,
        }
    }
}

// Rows are asked of the kind in a match each time: a function that hands a piece out as a `&dyn Rows` is refused by the check.
impl Part for Piece {
    ghost meaning = { λ p. meaning_of (clock_of p) };

    ghost duties = { λ p. kind_duties (spelled p.name) p.kind };

    fn number(&self) -> u8 {
        match &self.kind {
            PieceKind::Src(p) => p.number,
            PieceKind::Gate(p) => p.number,
            PieceKind::Fix(p) => p.number,
            PieceKind::Div(p) => p.number,
            PieceKind::Mux(p) => p.number,
            PieceKind::Pll(p) => p.number,
        }
    }

    fn source_rate(&self) -> Option<u32> {
        match &self.kind {
            PieceKind::Src(p) => Some(p.rate),
            _ => None,
        }
    }

    fn row_count(&self) -> u16 {
        match &self.kind {
            PieceKind::Src(_) => 0,
            PieceKind::Gate(p) => p.row_count(),
            PieceKind::Fix(p) => p.row_count(),
            PieceKind::Div(p) => p.row_count(),
            PieceKind::Mux(p) => p.row_count(),
            PieceKind::Pll(p) => p.row_count(),
        }
    }

    fn row(&self, at: RowNumber) -> Option<Row> {
        match &self.kind {
            PieceKind::Src(_) => None,
            PieceKind::Gate(p) => p.row(at),
            PieceKind::Fix(p) => p.row(at),
            PieceKind::Div(p) => p.row(at),
            PieceKind::Mux(p) => p.row(at),
            PieceKind::Pll(p) => p.row(at),
        }
    }

    fn row_of(&self, value: FieldValue) -> Option<RowNumber> {
        match &self.kind {
            PieceKind::Src(_) => None,
            PieceKind::Gate(p) => p.row_of(value),
            PieceKind::Fix(p) => p.row_of(value),
            PieceKind::Div(p) => p.row_of(value),
            PieceKind::Mux(p) => p.row_of(value),
            PieceKind::Pll(p) => p.row_of(value),
        }
    }

    fn rate_field(&self) -> Option<Place> {
        match &self.kind {
            PieceKind::Div(p) => Some(p.field),
            PieceKind::Mux(p) => Some(p.field),
            PieceKind::Pll(p) => Some(Place {
                register: p.register,
                shift: p.shift,
                width: p.nw + p.dw,
            }),
            _ => None,
        }
    }

    fn gate_bit(&self) -> Option<Place> {
        match &self.kind {
            PieceKind::Gate(p) => Some(p.bit),
            _ => None,
        }
    }

    fn lift(&self) -> bool {
        self.marks().lift
    }

    fn still(&self) -> bool {
        self.marks().still
    }

    fn band(&self) -> Band {
        match &self.kind {
            PieceKind::Pll(p) => Band {
                lo: p.lo as u64,
                hi: p.hi as u64,
            },
            _ => Band { lo: 0, hi: 1 << 40 },
        }
    }
}
