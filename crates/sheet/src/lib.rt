// Parts that are taken from a maker's sheet.
#![tactic(auto)]

mod duties;
mod sheet;
mod sheets;

pub use sheet::{Sheet, SheetPart};
