// What a clock can be: every part is known by its meaning, and keeps the same duties.
#![tactic(auto)]

mod checks;
mod fault;
mod part;
mod row;
mod short_list;

pub use checks::{row_again, value_again};
pub use fault::PartFault;
pub use part::Part;
pub use row::{Band, Marks, Row, RowNumber};
pub use short_list::{Full, ShortList};
