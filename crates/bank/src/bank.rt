// What every make of bank is. Code above knows a bank by its list of words alone.
ghost use Rattle.std.specs.Prelude.{◌≡◌, ℕ, ◌≤◌, List, length};
ghost use Rattle.bank.specs.Fields.{EachFits};
ghost use Rattle.bank.specs.Banks.{read_of, write_of, words_after, word_at};

use crate::fault::BankFault;
use crate::field::{FieldValue, Place};

pub trait Bank {
    // How many bits a word has, 1 to 32.
    const WORD_BITS: u32;

    // That number, as clauses name it.
    ghost WORD_BITS: { ℕ };

    // The bank's meaning: its list of words.
    ghost words: { Self → List ℕ };

    fn word_count(&self) -> usize
        ensures { result ≡ length (words self.now) };

    // A whole word, or none past the last.
    fn word(&self, index: usize) -> Option<u32>
        ensures { result ≡ word_at (words self.now) index };

    // What a field holds; every make of bank reads alike.
    fn read(&self, at: Place) -> Result<FieldValue, BankFault>
        ensures { result ≡ read_of WORD_BITS (words self.now) at }
    {
        let bits = at.bits_in(Self::WORD_BITS)?;
        let word = self
            .word(at.register as usize)
            .ok_or(BankFault::OutsideBank)?;
        Ok(FieldValue(bits.value_in(word)))
    }

    // Puts a value into a field. Place and value come apart, as `read` takes a place; an Entry for each call is no plainer.
    fn write(&mut self, at: Place, value: FieldValue) -> Result<(), BankFault>
        ensures answer { result ≡ write_of WORD_BITS (words self.old) at value }
        ensures after { words self.new ≡ words_after WORD_BITS (words self.old) at value };

    ghost size: { (1 ≤ WORD_BITS) × (WORD_BITS ≤ 32) };

    ghost fits: { (b : Self) → EachFits WORD_BITS (words b) };
}
