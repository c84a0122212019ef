// What the text files are made of: lines, words, names and numbers.
#![tactic(auto)]

mod cutter;
mod cutting;
mod name;
mod names;
mod numbers;

pub use cutter::{Cutter, Line, Lines, Span};
pub use name::Name;
pub use names::{is_name, is_word};
pub use numbers::{hex_word, number};
