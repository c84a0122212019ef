// How dividers and muxes write their values.

// How a divider's field value v reads: as v + 1, or as v, where 0 has no row. Each has the number of the first value that has one.
#[derive(Clone, Copy, PartialEq, Eq, Debug)]
pub enum DividerStyle {
    Zero = 0,
    One = 1,
}

// How a mux writes the index i of a parent: as i, or as 2^i.
#[derive(Clone, Copy, PartialEq, Eq, Debug)]
pub enum MuxStyle {
    Plain,
    Bit,
}
