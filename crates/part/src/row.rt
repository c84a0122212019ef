// What a clock's field value gives it, and what is asked of every part besides.
use bank::FieldValue;

// The number of a row, from 0. It is never taken for a field value.
#[derive(Clone, Copy, PartialEq, Eq, Debug)]
pub struct RowNumber(pub u16);

// One choice of a clock: with this value in its rate field it runs at n/d of the rate of clock `parent`.
#[derive(Clone, Copy, PartialEq, Eq, Debug)]
pub struct Row {
    pub value: FieldValue,
    pub parent: u8,
    pub n: u16,
    pub d: u16,
}

// The rates that a clock may have, in whole hertz, both ends included.
#[derive(Clone, Copy, PartialEq, Eq, Debug)]
pub struct Band {
    pub lo: u64,
    pub hi: u64,
}

// Whether a rate request may change clocks above this one, and whether this one stays as it is while it is needed.
#[derive(Clone, Copy, PartialEq, Eq, Debug)]
pub struct Marks {
    pub lift: bool,
    pub still: bool,
}
