// Reading a board file: which clocks there are, one to a line.
#![tactic(auto)]

mod line;
mod lines;
mod named;
mod reading;
mod taking;

pub use reading::read_board;
