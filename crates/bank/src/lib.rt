// Register banks: a list of words of which fields are read and written, whatever the device behind them.
#![tactic(auto)]

mod bank;
mod bits;
mod checks;
mod fault;
mod field;
mod mask;
mod playing;
mod word;

pub use bank::Bank;
pub use checks::{rewrite, write_beside, write_then_read};
pub use fault::BankFault;
pub use field::{Entry, FieldValue, Place};
pub use mask::{MaskBank, device_word};
pub use playing::play;
pub use word::WordBank;
