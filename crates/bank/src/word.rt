// The word bank: 32-bit words, written whole.
ghost use Rattle.std.specs.Prelude.{◌≡◌, ℕ, ◌^◌, ◌<◌, IfOk, slice_index};
ghost use Rattle.std.proofs.Common.{rules};

use crate::bank::Bank;
use crate::fault::BankFault;
use crate::field::{FieldValue, Place};
use std::alloc::{AllocError, Global};

#[derive(Drop)]
pub struct WordBank {
    words: Vec<u32>,
    ghost each: { (k : ℕ) → slice_index words.items k < 2 ^ 32 },
}

impl WordBank {
    // A bank that holds these words; want of memory is the one refusal.
    // The mask bank has such a function too: one bank over both words is no plainer, since only that one promises a device word.
    pub fn from_words(heap: Global, words: &[u32]) -> Result<WordBank, AllocError>
        ensures { IfOk result (λ b. b.words.items ≡ words.now) }
    {
        let words = Vec::from_slice(heap, words)?;
        Ok(WordBank { words })
    }
}

impl Bank for WordBank {
    const WORD_BITS: u32 = 32;

    ghost WORD_BITS = { 32 };

    ghost words = { λ b. b.words.items };

    ghost size = { Prim.search rules };

    ghost fits = { Prim.search rules };

    fn word_count(&self) -> usize {
        self.words.len()
    }

    fn word(&self, index: usize) -> Option<u32> {
        self.words.get(index).copied()
    }

    fn write(&mut self, at: Place, value: FieldValue) -> Result<(), BankFault> {
        let bits = at.bits_in(Self::WORD_BITS)?;
        let word = self
            .words
            .get_mut(at.register as usize)
            .ok_or(BankFault::OutsideBank)?;
        *word = bits.put(*word, bits.fitted(value)?);
        Ok(())
    }
}
