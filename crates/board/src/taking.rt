// The words of a clock line: each is taken from the line and judged. A word that is missing is a fault of the line, which has the
// byte place at which the line begins.
ghost use Rattle.std.specs.Prelude.{◌≡◌, ◌<◌, ◌≤◌, map, length, IfSome, IfOk, Some, position};
ghost use Rattle.std.specs.Str.{bytes_eq};
ghost use Rattle.files.specs.Faults.{bad_clock};
ghost use Rattle.piece.specs.Shown.{clock_of};
ghost use Rattle.words.specs.Cutting.{span_of, spans_left, first, others};
ghost use Rattle.words.specs.Spelling.{spelled};
ghost use Rattle.board.specs.Boards.{clock_named, name_word, parent_word, number_word, named_word};
ghost use Rattle.board.specs.Views.{viewed};

use crate::line::{ClockLine, Named, NumberWord};
use files::{FileFault, FileFaultKind};
use piece::Piece;
use words::{Cutter, Name, Span, number};

// Where the first of the pieces with a name stands.
fn find_piece(pieces: &[Piece], name: &[u8]) -> Option<usize>
    ensures { result ≡ position (λ p. bytes_eq (spelled p.name) name.now) pieces.now }
{
    pieces
        .iter()
        .position(|piece| piece.name.as_bytes() == name)
}

// Each `take_` function takes the next word of the line, and says that it leaves those behind it.
impl<'a> ClockLine<'a> {
    // A line of an unknown kind, or with the wrong number of words.
    pub(crate) fn bad(&self) -> FileFault
        ensures { result ≡ bad_clock self.now.place }
    {
        FileFaultKind::ClockLine.at(self.place)
    }

    // The number of the clock that the line describes.
    pub(crate) fn number(&self) -> u8
        ensures value { result ≡ length self.now.earlier.now }
        ensures few { result < 64 }
    {
        self.earlier.len() as u8
    }

    // The number of the earlier clock with a name.
    fn find_clock(&self, name: &[u8]) -> Option<u8>
        ensures answer { result ≡ clock_named (map clock_of self.now.earlier.now) name.now }
        ensures within { IfSome result (λ i. i < length self.now.earlier.now) }
    {
        let at = find_piece(self.earlier, name)?;
        Some(at as u8)
    }

    // NAME: a name that no earlier clock has.
    pub(crate) fn take_name(&self, words: &mut Cutter) -> Result<Name, FileFault>
        ensures answer { viewed spelled result ≡ name_word (map clock_of self.now.earlier.now) self.now.place (first (spans_left words.old)) }
        ensures after { spans_left words.new ≡ others (spans_left words.old) }
    {
        let Some(word) = words.next() else {
            return Err(self.bad());
        };
        let bad = FileFaultKind::ClockName.at(word.place);
        if self.find_clock(word.bytes).is_some() {
            return Err(bad);
        }
        Name::of(word.bytes).ok_or(bad)
    }

    // The earlier clock that a word names.
    pub(crate) fn parent_of(&self, word: &Span) -> Result<u8, FileFault>
        ensures answer { result ≡ parent_word (map clock_of self.now.earlier.now) 0 (Some (span_of word.now)) }
        ensures within { IfOk result (λ p. p < length self.now.earlier.now) }
    {
        self.find_clock(word.bytes)
            .ok_or(FileFaultKind::ClockParent.at(word.place))
    }

    // PARENT: the name of an earlier clock.
    pub(crate) fn take_parent(&self, words: &mut Cutter) -> Result<u8, FileFault>
        ensures answer { result ≡ parent_word (map clock_of self.now.earlier.now) self.now.place (first (spans_left words.old)) }
        ensures after { spans_left words.new ≡ others (spans_left words.old) }
        ensures within { IfOk result (λ p. p < length self.now.earlier.now) }
    {
        let Some(word) = words.next() else {
            return Err(self.bad());
        };
        self.parent_of(&word)
    }

    // A number from `lo` to `hi`.
    pub(crate) fn take_number(
        &self,
        words: &mut Cutter,
        lo: u64,
        hi: u64,
    ) -> Result<NumberWord, FileFault>
        ensures answer { result ≡ number_word lo hi self.now.place (first (spans_left words.old)) }
        ensures after { spans_left words.new ≡ others (spans_left words.old) }
        ensures within { IfOk result (λ n. (lo ≤ n.value) × (n.value ≤ hi)) }
    {
        let Some(word) = words.next() else {
            return Err(self.bad());
        };
        let place = word.place;
        match number(word.bytes) {
            Some(value) if lo <= value && value <= hi => Ok(NumberWord { place, value }),
            _ => Err(FileFaultKind::ClockWord.at(place)),
        }
    }

    // FLAGS, or STYLE of a divider or of a mux: a word that names such a value.
    pub(crate) fn take_named<T: Named>(&self, words: &mut Cutter) -> Result<T, FileFault>
        ensures answer { result ≡ named_word T.value_named self.now.place (first (spans_left words.old)) }
        ensures after { spans_left words.new ≡ others (spans_left words.old) }
    {
        let Some(word) = words.next() else {
            return Err(self.bad());
        };
        T::named(word.bytes).ok_or(FileFaultKind::ClockWord.at(word.place))
    }
}
