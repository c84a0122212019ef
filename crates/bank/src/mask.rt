// The mask bank: 16-bit words, written by a device word that marks the bits that it writes.
ghost use Rattle.std.specs.Prelude.{◌≡◌, ℕ, ◌+◌, ◌^◌, ◌<◌, IfOk, Ok, slice_index};
ghost use Rattle.bank.specs.Banks.{write_of, words_after};
ghost use Rattle.bank.specs.Masks.{device_word_of, taken, sent};
ghost use Rattle.std.proofs.Common.{rules};

use crate::bank::Bank;
use crate::fault::BankFault;
use crate::field::{FieldValue, Place};
use std::alloc::{AllocError, Global};

#[derive(Drop)]
pub struct MaskBank {
    words: Vec<u16>,
    ghost each: { (k : ℕ) → slice_index words.items k < 2 ^ 16 },
}

// The device word that writes a value into a field: the upper half marks the field's bits.
pub fn device_word(at: Place, value: FieldValue) -> Result<u32, BankFault>
    ensures { result ≡ device_word_of at value }
{
    let bits = at.bits_in(16)?;
    Ok(bits.device_word(bits.fitted(value)?))
}

// What the device makes of a device word: the marked bits are taken from its lower half. `>>` and `&` cut the halves out; a
// `try_from` would answer an error that can't come up, and is no plainer.
fn take_marked(old: u16, device: u32) -> u16
    ensures { result ≡ taken old device }
{
    let marks = (device >> 16) as u16;
    let low = (device & 0xffff) as u16;
    let kept = old - (old & marks);
    kept + (low & marks)
}

impl MaskBank {
    // A bank that holds these words; want of memory is the one refusal.
    // Each bank has this function of its own: one bank over both words is no plainer, since only this one promises a device word.
    pub fn from_words(heap: Global, words: &[u16]) -> Result<MaskBank, AllocError>
        ensures { IfOk result (λ b. b.words.items ≡ words.now) }
    {
        let words = Vec::from_slice(heap, words)?;
        Ok(MaskBank { words })
    }
}

impl Bank for MaskBank {
    const WORD_BITS: u32 = 16;

    ghost WORD_BITS = { 16 };

    ghost words = { λ b. b.words.items };

    ghost size = { Prim.search rules };

    ghost fits = { Prim.search rules };

    fn word_count(&self) -> usize {
        self.words.len()
    }

    fn word(&self, index: usize) -> Option<u32> {
        self.words.get(index).map(|word| u32::from(*word))
    }

    // An accepted write is one device word that the device takes.
    fn write(&mut self, at: Place, value: FieldValue) -> Result<(), BankFault>
        ensures answer { result ≡ write_of 16 self.old.words.items at value }
        ensures after { self.new.words.items ≡ words_after 16 self.old.words.items at value }
        ensures device { (word : ℕ) → result ≡ Ok tt → device_word_of at value ≡ Ok word → self.new.words.items ≡ sent self.old.words.items at.register word }
    {
        let word = self
            .words
            .get_mut(at.register as usize)
            .ok_or(BankFault::OutsideBank)?;
        *word = take_marked(*word, device_word(at, value)?);
        Ok(())
    }
}
