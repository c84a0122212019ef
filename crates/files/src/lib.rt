// Reading and printing the text files of the clock library: register lists, writes, answers and faults.
#![tactic(auto)]

mod atfault;
mod fault;
mod list;
mod printing;
mod registers;
mod text;
mod writes;

pub use atfault::word_at_fault;
pub use fault::{FileFault, FileFaultKind, PrintFault};
pub use list::{Make, ReadFault, RegisterList};
pub use printing::{
    make_line, no_at_line, no_line, number_text, ok_line, print_registers, word_line, write_line,
};
pub use registers::read_registers;
pub use text::ShortText;
pub use writes::read_write;
