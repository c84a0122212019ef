// Playing a script of writes on the bank that a register list describes.
#![tactic(auto)]

ghost use Rattle.std.specs.Prelude.{◌≡◌, ◌++◌, IfOk, OnOk};
ghost use Rattle.bank.specs.Entries.{entry_of, entry_after};
ghost use Rattle.words.specs.Cutting.{lines_of};
ghost use Rattle.files.specs.Printing.{holds, registers_text, write_text};
ghost use Rattle.replay.specs.Transcripts.{answer_text, fault_text, run_from, transcript_of};

use bank::{Bank, Entry, MaskBank, WordBank};
use files::{
    FileFault, Make, ReadFault, RegisterList, ShortText, make_line, no_at_line, no_line, ok_line,
    read_registers, read_write, word_line, write_line,
};
use std::alloc::{AllocError, Global};
use words::Lines;

// The call of the library that adds bytes, named once for this and the two below: a String and a Display of lines are no plainer.
fn append(out: &mut Vec<u8>, line: &ShortText) -> Result<(), AllocError>
    ensures { OnOk result (out.new.items ≡ out.old.items ++ holds line.now) }
{
    out.extend_from_slice(line.as_bytes())
}

fn append_fault(out: &mut Vec<u8>, fault: FileFault) -> Result<(), AllocError>
    ensures { OnOk result (out.new.items ≡ out.old.items ++ fault_text fault) }
{
    append(out, &no_at_line(fault.number(), fault.place))
}

// The register list as it stands.
fn append_registers<B: Bank>(out: &mut Vec<u8>, make: Make, bank: &B) -> Result<(), AllocError>
    ensures { OnOk result (out.new.items ≡ out.old.items ++ registers_text make (B.words bank.now)) }
{
    append(out, &make_line(make))?;
    // by number: over `map_while(|k| bank.word(k))` of any bank, the check refuses the invariant that it makes itself
    for k in 0..bank.word_count() {
        if let Some(word) = bank.word(k) {
            append(out, &word_line(word))?;
        }
    }
    Ok(())
}

// Plays one write: its line, and what the bank answers.
fn play_entry<B: Bank>(out: &mut Vec<u8>, bank: &mut B, entry: Entry) -> Result<(), AllocError>
    ensures text { OnOk result (out.new.items ≡ out.old.items ++ write_text entry ++ answer_text (entry_of B.WORD_BITS (B.words bank.old) entry)) }
    ensures after { OnOk result (B.words bank.new ≡ entry_after B.WORD_BITS (B.words bank.old) entry) }
{
    append(out, &write_line(entry))?;
    let answer = match bank.write(entry.place, entry.value) {
        Ok(()) => ok_line(),
        Err(fault) => no_line(fault.number()),
    };
    append(out, &answer)
}

// Plays the lines of a script in order, up to a line that is none; at the end of the script the register list follows.
fn play_script<B: Bank>(
    out: &mut Vec<u8>,
    bank: &mut B,
    make: Make,
    script: &[u8],
) -> Result<(), AllocError>
    ensures { OnOk result (out.new.items ≡ out.old.items ++ run_from B.WORD_BITS make (B.words bank.old) (lines_of script.now)) }
{
    for line in Lines::of(script) {
        match read_write(&line) {
            Ok(entry) => play_entry(out, bank, entry)?,
            Err(fault) => return append_fault(out, fault),
        }
    }
    append_registers(out, make, bank)
}

// Everything that a run prints, given the texts of the register list and of the script; want of memory is the one refusal.
pub fn transcript(heap: Global, registers: &[u8], script: &[u8]) -> Result<Vec<u8>, AllocError>
    ensures { IfOk result (λ v. v.items ≡ transcript_of registers.now script.now) }
{
    let mut out = Vec::new(heap);
    // an arm for each make, with a bank of its type; what they share is `play_script`, and one more function is no plainer
    match read_registers(heap, registers) {
        Ok(RegisterList::WordList(words)) => {
            let mut bank = WordBank::from_words(heap, words.as_slice())?;
            play_script(&mut out, &mut bank, Make::Word, script)?;
        }
        Ok(RegisterList::MaskList(words)) => {
            let mut bank = MaskBank::from_words(heap, words.as_slice())?;
            play_script(&mut out, &mut bank, Make::Mask, script)?;
        }
        Err(ReadFault::File(fault)) => append_fault(&mut out, fault)?,
        Err(ReadFault::NoMemory) => return Err(AllocError),
    }
    Ok(out)
}
