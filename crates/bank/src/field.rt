// Fields of registers, their values, and writes.

// Where a field lies: `width` bits of a register, from bit `shift` up.
#[derive(Clone, Copy, PartialEq, Eq, Debug)]
pub struct Place {
    pub register: u8,
    pub shift: u8,
    pub width: u8,
}

// What a field holds. It is never taken for the number of a row.
#[derive(Clone, Copy, PartialEq, Eq, Debug)]
pub struct FieldValue(pub u32);

// One write: a value into a field.
#[derive(Clone, Copy, PartialEq, Eq, Debug)]
pub struct Entry {
    pub place: Place,
    pub value: FieldValue,
}
