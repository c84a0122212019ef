// The bits of a field in one word, which every make of bank reads and replaces alike.
ghost use Rattle.std.specs.Prelude.{◌≡◌, ◌+◌, ◌^◌, ◌<◌, ◌≤◌, ◌==◌, ◌||◌, cond, nat_le, nat_lt, IfOk, IfErr, is_err, Ok, Err};
ghost use Rattle.bank.specs.Fields.{bits_of, bits_put};
ghost use Rattle.bank.specs.Masks.{device_word};

use crate::fault::BankFault;
use crate::field::{FieldValue, Place};

// A field's bits in a word: `width` of them, from bit `shift` up.
#[derive(Clone, Copy)]
pub(crate) struct Bits {
    shift: u8,
    width: u8,
    ghost within: { shift + width ≤ 32 },
}

impl Place {
    // The place's bits in a word of `word_bits` bits, refused where it has none or they pass the word.
    pub(crate) fn bits_in(self, word_bits: u32) -> Result<Bits, BankFault>
        requires { word_bits ≤ 32 }
        ensures bits { IfOk result (λ bits. (bits.shift ≡ self.shift) × (bits.width ≡ self.width)) }
        ensures fault { IfErr result (λ fault. fault ≡ BankFault.OutsideBank) }
        ensures refused { is_err result ≡ (self.width == 0 || nat_lt word_bits (self.shift + self.width)) }
    {
        if self.width == 0 || u32::from(self.shift) + u32::from(self.width) > word_bits {
            return Err(BankFault::OutsideBank);
        }
        Ok(Bits {
            shift: self.shift,
            width: self.width,
        })
    }
}

impl Bits {
    // The value as a number, refused where it doesn't fit the bits.
    pub(crate) fn fitted(self, value: FieldValue) -> Result<u32, BankFault>
        ensures { result ≡ cond (nat_le (2 ^ self.width) value.0) (Err BankFault.TooWide) (Ok value.0) }
    {
        if u64::from(value.0) >= 1u64 << self.width {
            return Err(BankFault::TooWide);
        }
        Ok(value.0)
    }

    // What the bits hold in a word.
    pub(crate) fn value_in(self, word: u32) -> u32
        ensures { result ≡ bits_of word self.shift self.width }
    {
        let high = word as u64 >> self.shift;
        (high % (1u64 << self.width)) as u32
    }

    // A word with a value in place of these bits.
    pub(crate) fn put(self, word: u32, value: u32) -> u32
        requires { value < 2 ^ self.width }
        ensures { result ≡ bits_put word self.shift self.width value }
    {
        let end = self.shift + self.width;
        let kept = word as u64;
        let high = (kept >> end) << end;
        let low = kept % (1u64 << self.shift);
        (high + ((value as u64) << self.shift) + low) as u32
    }

    // The device word of a 16-bit word that writes a value into these bits.
    pub(crate) fn device_word(self, value: u32) -> u32
        requires within { self.shift + self.width ≤ 16 }
        requires fits { value < 2 ^ self.width }
        ensures { result ≡ device_word self.shift self.width value }
    {
        let marks = (1u32 << (self.shift + self.width)) - (1u32 << self.shift);
        (marks << 16) + (value << self.shift)
    }
}
