// Register lists.
use crate::fault::FileFault;

// A make of bank that a register list can name.
#[derive(Clone, Copy, PartialEq, Eq, Debug)]
pub enum Make {
    // 32-bit words, written whole.
    Word,
    // 16-bit words, written by device words with marks.
    Mask,
}

// Which make of bank a list is for, and its words.
#[derive(Drop)]
pub enum RegisterList {
    WordList(Vec<u32>),
    MaskList(Vec<u16>),
}

// Why a register list is not read: what is wrong with its text, or want of memory for its words.
#[derive(Clone, Copy, PartialEq, Eq, Debug)]
pub enum ReadFault {
    File(FileFault),
    NoMemory,
}
