// Clock lines: the word for the kind, and then as many words as that kind has.
ghost use Rattle.std.specs.Prelude.{◌≡◌, ℕ, ◌-◌, ◌^◌, ◌<◌, ◌≤◌, map, length, IfOk, nat_lt, slice_index};
ghost use Rattle.part.specs.Lists.{listed};
ghost use Rattle.piece.specs.Pieces.{mux_value};
ghost use Rattle.piece.specs.Shown.{clock_of};
ghost use Rattle.words.specs.Cutting.{line_of, spans_left};
ghost use Rattle.board.specs.Boards.{src_line, gate_line, fix_line, div_line, mux_line, pll_line, parent_words, placed, line_kind, words_line, line_clock};
ghost use Rattle.board.specs.Views.{viewed};

use crate::line::{ClockLine, LineKind, NumberWord};
use bank::Place;
use files::{FileFault, FileFaultKind};
use part::ShortList;
use piece::{
    DivPiece, FixPiece, GatePiece, MuxPiece, MuxStyle, Piece, PieceKind, PllPiece, SrcPiece,
};
use words::{Cutter, Line};

// The kind that a line's first word names, where `count` words stand behind it as that kind asks.
fn line_kind(word: &[u8], count: usize) -> Option<LineKind>
    ensures { result ≡ line_kind word.now count }
{
    match word {
        b"src" if count == 2 => Some(LineKind::Src),
        b"gate" if count == 5 => Some(LineKind::Gate),
        b"fix" if count == 5 => Some(LineKind::Fix),
        b"div" if count == 7 => Some(LineKind::Div),
        b"mux" if count >= 7 && count <= 14 => Some(LineKind::Mux),
        b"pll" if count == 9 => Some(LineKind::Pll),
        _ => None,
    }
}

// The place that REG and SHIFT or BIT name, with so many bits.
fn placed(register: NumberWord, shift: NumberWord, width: u64) -> Place
    requires { (register.value < 256) × (shift.value < 256) × (width < 256) }
    ensures { result ≡ placed register shift width }
{
    Place {
        register: register.value as u8,
        shift: shift.value as u8,
        width: width as u8,
    }
}

// Whether the field value of the last of `count` parents fits so many bits.
fn last_fits(style: MuxStyle, count: u8, width: u64) -> bool
    requires { (1 ≤ count) × ((count ≤ 8) × (width ≤ 8)) }
    ensures { result ≡ nat_lt (mux_value style (count - 1)) (2 ^ width) }
{
    style
        .value(count - 1)
        .is_some_and(|value| u64::from(value) < 1u64 << width)
}

impl<'a> ClockLine<'a> {
    // NAME RATE
    fn src_line(&self, words: &mut Cutter) -> Result<Piece, FileFault>
        ensures { viewed clock_of result ≡ src_line (map clock_of self.now.earlier.now) self.now.place (spans_left words.old) }
    {
        let name = self.take_name(words)?;
        let rate = self.take_number(words, 1, 4294967295)?;
        Ok(Piece {
            name,
            kind: PieceKind::Src(SrcPiece {
                number: self.number(),
                rate: rate.value as u32,
            }),
        })
    }

    // NAME PARENT REG BIT FLAGS
    fn gate_line(&self, words: &mut Cutter) -> Result<Piece, FileFault>
        ensures { viewed clock_of result ≡ gate_line (map clock_of self.now.earlier.now) self.now.place (spans_left words.old) }
    {
        let name = self.take_name(words)?;
        let parent = self.take_parent(words)?;
        let register = self.take_number(words, 0, 63)?;
        let bit = self.take_number(words, 0, 31)?;
        let marks = self.take_named(words)?;
        Ok(Piece {
            name,
            kind: PieceKind::Gate(GatePiece {
                number: self.number(),
                parent,
                bit: placed(register, bit, 1),
                marks,
            }),
        })
    }

    // NAME PARENT N D FLAGS
    fn fix_line(&self, words: &mut Cutter) -> Result<Piece, FileFault>
        ensures { viewed clock_of result ≡ fix_line (map clock_of self.now.earlier.now) self.now.place (spans_left words.old) }
    {
        let name = self.take_name(words)?;
        let parent = self.take_parent(words)?;
        let n = self.take_number(words, 1, 65535)?;
        let d = self.take_number(words, 1, 65535)?;
        let marks = self.take_named(words)?;
        Ok(Piece {
            name,
            kind: PieceKind::Fix(FixPiece {
                number: self.number(),
                parent,
                n: n.value as u16,
                d: d.value as u16,
                marks,
            }),
        })
    }

    // NAME PARENT REG SHIFT WIDTH STYLE FLAGS
    fn div_line(&self, words: &mut Cutter) -> Result<Piece, FileFault>
        ensures { viewed clock_of result ≡ div_line (map clock_of self.now.earlier.now) self.now.place (spans_left words.old) }
    {
        let name = self.take_name(words)?;
        let parent = self.take_parent(words)?;
        let register = self.take_number(words, 0, 63)?;
        let shift = self.take_number(words, 0, 31)?;
        let width = self.take_number(words, 1, 8)?;
        let style = self.take_named(words)?;
        let marks = self.take_named(words)?;
        Ok(Piece {
            name,
            kind: PieceKind::Div(DivPiece {
                number: self.number(),
                parent,
                field: placed(register, shift, width.value),
                style,
                marks,
            }),
        })
    }

    // PARENT..: all words that are left, each the name of an earlier clock.
    fn take_parents(&self, words: Cutter) -> Result<ShortList<u8, 8>, FileFault>
        requires { length (spans_left words) ≤ 8 }
        ensures answer { viewed listed result ≡ parent_words (map clock_of self.now.earlier.now) (spans_left words.entry) }
        ensures count { IfOk result (λ ps. length (listed ps) ≡ length (spans_left words.entry)) }
        ensures within { IfOk result (λ ps. (i : ℕ) → i < length (listed ps) → slice_index (listed ps) i < length self.now.earlier.now) }
    {
        let mut parents = ShortList::empty(0);
        for word in words {
            let parent = self.parent_of(&word)?;
            parents.push(parent).unwrap();
        }
        Ok(parents)
    }

    // NAME REG SHIFT WIDTH STYLE FLAGS PARENT..: last, the value of the last parent must fit the width.
    fn mux_line(&self, words: &mut Cutter) -> Result<Piece, FileFault>
        requires { (7 ≤ length (spans_left words.old)) × (length (spans_left words.old) ≤ 14) }
        ensures { viewed clock_of result ≡ mux_line (map clock_of self.now.earlier.now) self.now.place (spans_left words.old) }
    {
        let name = self.take_name(words)?;
        let register = self.take_number(words, 0, 63)?;
        let shift = self.take_number(words, 0, 31)?;
        let width = self.take_number(words, 1, 8)?;
        let style = self.take_named(words)?;
        let marks = self.take_named(words)?;
        let parents = self.take_parents(*words)?;
        if !last_fits(style, parents.len() as u8, width.value) {
            return Err(FileFaultKind::ClockWord.at(width.place));
        }
        Ok(Piece {
            name,
            kind: PieceKind::Mux(MuxPiece {
                number: self.number(),
                parents,
                field: placed(register, shift, width.value),
                style,
                marks,
            }),
        })
    }

    // NAME PARENT REG SHIFT NW DW FLAGS LO HI: last, HI must not be below LO.
    fn pll_line(&self, words: &mut Cutter) -> Result<Piece, FileFault>
        ensures { viewed clock_of result ≡ pll_line (map clock_of self.now.earlier.now) self.now.place (spans_left words.old) }
    {
        let name = self.take_name(words)?;
        let parent = self.take_parent(words)?;
        let register = self.take_number(words, 0, 63)?;
        let shift = self.take_number(words, 0, 31)?;
        let nw = self.take_number(words, 1, 8)?;
        let dw = self.take_number(words, 1, 6)?;
        let marks = self.take_named(words)?;
        let lo = self.take_number(words, 1, 4294967295)?;
        let hi = self.take_number(words, 1, 4294967295)?;
        if hi.value < lo.value {
            return Err(FileFaultKind::ClockWord.at(hi.place));
        }
        Ok(Piece {
            name,
            kind: PieceKind::Pll(PllPiece {
                number: self.number(),
                parent,
                register: register.value as u8,
                shift: shift.value as u8,
                nw: nw.value as u8,
                dw: dw.value as u8,
                marks,
                lo: lo.value as u32,
                hi: hi.value as u32,
            }),
        })
    }

    // The clock that the words of the line describe: the word for the kind, and as many words as that kind has.
    fn read(&self, mut words: Cutter) -> Result<Piece, FileFault>
        ensures { viewed clock_of result ≡ words_line (map clock_of self.now.earlier.now) self.now.place (spans_left words.entry) }
    {
        let Some(word) = words.next() else {
            return Err(self.bad());
        };
        // in two steps: with these calls in the match on the bytes, the proof of its default arm does not close
        let count = words.count();
        match line_kind(word.bytes, count) {
            Some(LineKind::Src) => self.src_line(&mut words),
            Some(LineKind::Gate) => self.gate_line(&mut words),
            Some(LineKind::Fix) => self.fix_line(&mut words),
            Some(LineKind::Div) => self.div_line(&mut words),
            Some(LineKind::Mux) => self.mux_line(&mut words),
            Some(LineKind::Pll) => self.pll_line(&mut words),
            None => Err(self.bad()),
        }
    }
}

// The clock that a line describes, given those of the lines before it.
pub(crate) fn read_line(line: &Line, earlier: &[Piece]) -> Result<Piece, FileFault>
    requires { length earlier.now < 64 }
    ensures { viewed clock_of result ≡ line_clock (map clock_of earlier.now) (line_of line.now) }
{
    let clock = ClockLine {
        place: line.place,
        earlier,
    };
    clock.read(line.words())
}
