// The spans that a text is cut into, and what cuts it. Each span is a slice of the text with the byte place at which it begins.
ghost use Rattle.std.specs.Prelude.{◌+◌, ◌^◌, ◌<◌, ◌≤◌, length};
ghost use Rattle.std.specs.Option.{ForSome};

// A span of a text, with the byte place at which it begins.
#[derive(Clone, Copy)]
pub struct Span<'a> {
    pub place: usize,
    pub bytes: &'a [u8],
}

// A line of a text without its LF, and whether an LF ends it. `text` is the text up to the line's end, so that the line is
// what stands in it from `place` on, whatever that is set to.
#[derive(Clone, Copy)]
pub struct Line<'a> {
    pub(crate) text: &'a [u8],
    pub place: usize,
    pub ended: bool,
}

// The spans of a text that is cut at each byte `mark`: what is still to cut, which begins at the byte place `at`, or none once
// the last span was given.
#[derive(Clone, Copy)]
pub struct Cutter<'a> {
    pub(crate) rest: Option<&'a [u8]>,
    pub(crate) at: usize,
    pub(crate) mark: u8,
    ghost fits: { ForSome rest (λ r. at + length r.now < 2 ^ 64) },
    ghost short: { ForSome rest (λ r. length r.now < 2 ^ 63) },
}

// The lines of a text, one after the other: the next begins at `at`.
#[derive(Clone, Copy)]
pub struct Lines<'a> {
    pub(crate) text: &'a [u8],
    pub(crate) at: usize,
    ghost within: { at ≤ length text.now },
    ghost short: { length text.now < 2 ^ 63 },
}
