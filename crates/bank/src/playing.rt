// Writing entries in order on any bank.
ghost use Rattle.std.specs.Prelude.{◌≡◌};
ghost use Rattle.bank.specs.Entries.{play_of, play_after};

use crate::bank::Bank;
use crate::fault::BankFault;
use crate::field::Entry;

// Writes the entries one after the other, and stops at the first that is refused.
pub fn play<B: Bank>(bank: &mut B, entries: &[Entry]) -> Result<(), BankFault>
    ensures answer { result ≡ play_of B.WORD_BITS (B.words bank.old) entries.now }
    ensures after { B.words bank.new ≡ play_after B.WORD_BITS (B.words bank.old) entries.now }
{
    for e in entries {
        bank.write(e.place, e.value)?;
    }
    Ok(())
}
