// A clock line while it is read, and what one of its words may be.
ghost use Rattle.std.specs.Prelude.{◌≡◌, ℕ, ◌<◌, List, length, Option};

use piece::Piece;

// A clock line: the byte place at which it begins, and the clocks of the lines before it. Its words are handed to its methods apart:
// were they a field, each method would have to say that place and clocks stay, which is no plainer.
#[derive(Clone, Copy)]
pub(crate) struct ClockLine<'a> {
    pub(crate) place: usize,
    pub(crate) earlier: &'a [Piece],
    ghost few: { length earlier.now < 64 },
}

// The kinds of clock line.
#[derive(Clone, Copy)]
pub(crate) enum LineKind {
    Src,
    Gate,
    Fix,
    Div,
    Mux,
    Pll,
}

// A number and the byte place of its word.
#[derive(Clone, Copy)]
pub(crate) struct NumberWord {
    pub(crate) place: usize,
    pub(crate) value: u64,
}

// A value that is named by one word of a clock line, out of a few.
pub(crate) trait Named: Sized {
    ghost value_named: { List ℕ → Option Self };

    fn named(word: &[u8]) -> Option<Self>
        ensures { result ≡ value_named word.now };
}
