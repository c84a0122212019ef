// A name, held in the value itself.
ghost use Rattle.std.specs.Prelude.{◌≡◌, ◌≤◌, true, length, take};
ghost use Rattle.words.specs.Names.{is_name};

// 1 to 12 of a-z, 0-9 and _: the first `len` bytes. By hand: the kit's text of fixed length has a length of 8 bytes beside it, and a
// board's list of 64 clocks would be longer by a sixth.
#[derive(Clone, Copy)]
pub struct Name {
    pub(crate) bytes: [u8; 12],
    pub(crate) len: u8,
    ghost room: { length bytes ≡ 12 },
    ghost short: { len ≤ 12 },
    ghost named: { is_name (take len bytes) ≡ true },
}
