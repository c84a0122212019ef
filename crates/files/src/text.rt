// A short text, held in the value itself.
ghost use Rattle.std.specs.Prelude.{◌≤◌, length};

use arrayvec::ArrayString;

// One printed line, of at most 32 bytes, which the type of its text keeps but does not show.
#[derive(Clone, Copy)]
pub struct ShortText {
    pub(crate) text: ArrayString<32>,
    ghost short: { length text.bytes ≤ 32 },
}
