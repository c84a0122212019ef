// The six kinds of board piece. What each must keep to is part of its type, so that no piece, however it was filled, has a
// divisor of 0 or a parent that is not below it. Each says so of its own parent: with number and parent in a struct of their own it
// would be no plainer to fill one in.
ghost use Rattle.std.specs.Prelude.{◌≡◌, ℕ, ◌-◌, ◌^◌, ◌<◌, ◌≤◌, length, slice_index};
ghost use Rattle.part.specs.Lists.{listed};
ghost use Rattle.piece.specs.Pieces.{mux_value};

use crate::style::{DividerStyle, MuxStyle};
use bank::Place;
use part::{Marks, ShortList};
use words::Name;

// A source of a fixed rate in hertz.
#[derive(Clone, Copy)]
pub struct SrcPiece {
    pub number: u8,
    pub rate: u32,
    ghost runs: { 1 ≤ rate },
    ghost fits: { rate < 2 ^ 32 },
}

// A gate: its parent's rate, behind a bit that opens it.
#[derive(Clone, Copy)]
pub struct GatePiece {
    pub number: u8,
    pub parent: u8,
    pub bit: Place,
    pub marks: Marks,
    ghost below: { parent < number },
    ghost single: { bit.width ≡ 1 },
}

// A fixed ratio n/d of its parent's rate.
#[derive(Clone, Copy)]
pub struct FixPiece {
    pub number: u8,
    pub parent: u8,
    pub n: u16,
    pub d: u16,
    pub marks: Marks,
    ghost below: { parent < number },
    ghost times: { (1 ≤ n) × (n < 2 ^ 16) },
    ghost over: { (1 ≤ d) × (d < 2 ^ 16) },
}

// A divider of 1 to 8 bits.
#[derive(Clone, Copy)]
pub struct DivPiece {
    pub number: u8,
    pub parent: u8,
    pub field: Place,
    pub style: DividerStyle,
    pub marks: Marks,
    ghost below: { parent < number },
    ghost wide: { 1 ≤ field.width },
    ghost narrow: { field.width ≤ 8 },
}

// A mux of 1 to 8 parents, which come first so that no space is lost between the fields.
#[derive(Clone, Copy)]
pub struct MuxPiece {
    pub parents: ShortList<u8, 8>,
    pub number: u8,
    pub field: Place,
    pub style: MuxStyle,
    pub marks: Marks,
    ghost some: { 1 ≤ length (listed parents) },
    ghost below: { (i : ℕ) → i < length (listed parents) → slice_index (listed parents) i < number },
    ghost fits: { mux_value style (length (listed parents) - 1) < 2 ^ field.width },
}

// A PLL: the low `dw` bits of its field hold the divisor, the next `nw` bits the multiplier.
#[derive(Clone, Copy)]
pub struct PllPiece {
    pub number: u8,
    pub parent: u8,
    pub register: u8,
    pub shift: u8,
    pub nw: u8,
    pub dw: u8,
    pub marks: Marks,
    pub lo: u32,
    pub hi: u32,
    ghost below: { parent < number },
    ghost nwide: { 1 ≤ nw },
    ghost nshort: { nw ≤ 8 },
    ghost dwide: { 1 ≤ dw },
    ghost dshort: { dw ≤ 6 },
    ghost order: { lo ≤ hi },
    ghost fits: { hi < 2 ^ 32 },
}

#[derive(Clone, Copy)]
pub enum PieceKind {
    Src(SrcPiece),
    Gate(GatePiece),
    Fix(FixPiece),
    Div(DivPiece),
    Mux(MuxPiece),
    Pll(PllPiece),
}

// A clock of a board file, with the name that scripts call it by.
#[derive(Clone, Copy)]
pub struct Piece {
    pub name: Name,
    pub kind: PieceKind,
}
