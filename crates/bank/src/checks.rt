// What holds of reading and writing on every bank, as calls that do it.
ghost use Rattle.std.specs.Prelude.{◌≡◌, false, length, Ok};
ghost use Rattle.std.specs.Result.{result_and};
ghost use Rattle.bank.specs.Banks.{read_of, write_of, words_after, shares_bit};

use crate::bank::Bank;
use crate::fault::BankFault;
use crate::field::{FieldValue, Place};

// Writes a field and reads it back: what is written is what is read. The bank has as many words as before.
pub fn write_then_read<B: Bank>(
    bank: &mut B,
    at: Place,
    value: FieldValue,
) -> Result<FieldValue, BankFault>
    ensures answer { result ≡ result_and (write_of B.WORD_BITS (B.words bank.old) at value) (Ok value) }
    ensures after { B.words bank.new ≡ words_after B.WORD_BITS (B.words bank.old) at value }
    ensures count { length (B.words bank.new) ≡ length (B.words bank.old) }
{
    write_beside(bank, at, value, at)
}

// Writes one field and reads another: where the two share no bit, the write has left it as it was.
pub fn write_beside<B: Bank>(
    bank: &mut B,
    at: Place,
    value: FieldValue,
    beside: Place,
) -> Result<FieldValue, BankFault>
    ensures answer { result ≡ result_and (write_of B.WORD_BITS (B.words bank.old) at value) (read_of B.WORD_BITS (words_after B.WORD_BITS (B.words bank.old) at value) beside) }
    ensures left { shares_bit at beside ≡ false → result ≡ result_and (write_of B.WORD_BITS (B.words bank.old) at value) (read_of B.WORD_BITS (B.words bank.old) beside) }
    ensures after { B.words bank.new ≡ words_after B.WORD_BITS (B.words bank.old) at value }
{
    bank.write(at, value)?;
    bank.read(beside)
}

// Writes into a field what stands there: no word changes.
pub fn rewrite<B: Bank>(bank: &mut B, field: Place) -> Result<FieldValue, BankFault>
    ensures answer { result ≡ read_of B.WORD_BITS (B.words bank.old) field }
    ensures after { B.words bank.new ≡ B.words bank.old }
{
    let value = bank.read(field)?;
    bank.write(field, value)?;
    Ok(value)
}
