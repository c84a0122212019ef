// Reading a register list from text.
ghost use Rattle.std.specs.Prelude.{◌≡◌, ◌%◌, ◌^◌, map, if◌then◌else◌, IfOk, Some, None, Ok, Err, MatchResult};
ghost use Rattle.files.specs.declared.list.ReadFault.TheVariants.{File, NoMemory};
ghost use Rattle.std.specs.Option.{option_map};
ghost use Rattle.words.specs.Cutting.{line_of, lines_left, others};
ghost use Rattle.files.specs.Registers.{make_bits, make_line, head_make, word_line, words_from, registers_of, ReadAs};

use crate::fault::{FileFault, FileFaultKind};
use crate::list::{Make, ReadFault, RegisterList};
use arrayvec::ArrayVec;
use std::alloc::{AllocError, Global};
use words::{Line, Lines, hex_word};

impl Make {
    // How many bits a word has.
    pub fn word_bits(self) -> u32
        ensures { result ≡ make_bits self }
    {
        match self {
            Make::Word => 32,
            Make::Mask => 16,
        }
    }
}

// The bytes of a line that an LF ends, or none where none does.
fn ended_bytes<'a>(line: &Line<'a>) -> Option<&'a [u8]>
    ensures { option_map (λ b. b.now) result ≡ (if (line_of line.now).ended then Some (line_of line.now).bytes else None) }
{
    line.ended.then_some(line.bytes())
}

// The make that a first line names.
fn named_make(line: &Line) -> Option<Make>
    ensures { result ≡ make_line (line_of line.now) }
{
    match ended_bytes(line)? {
        b"word" => Some(Make::Word),
        b"mask" => Some(Make::Mask),
        _ => None,
    }
}

// The word that a line holds.
fn line_word(make: Make, line: &Line) -> Option<u32>
    ensures { result ≡ word_line make (line_of line.now) }
{
    hex_word(ended_bytes(line)?).filter(|word| u64::from(*word) < 1u64 << make.word_bits())
}

// The words of the lines that are left, in place of what a list holds. It is lent, so that it need not be moved.
fn read_words(make: Make, lines: Lines, words: &mut ArrayVec<u32, 64>) -> Result<(), FileFault>
    ensures { MatchResult result (λ _. words_from make 64 (lines_left lines.entry) ≡ Ok words.new.items) (λ f. words_from make 64 (lines_left lines.entry) ≡ Err f) }
{
    words.clear();
    for line in lines {
        let bad = FileFaultKind::RegisterLine.at(line.place);
        if words.is_full() {
            return Err(bad);
        }
        words.push(line_word(make, &line).ok_or(bad)?);
    }
    Ok(())
}

// The lower half of a word. The words of a mask list have 16 bits, so that a `try_from` would answer an error that can't come up; it
// is no plainer.
fn lower_half(word: u32) -> u16
    ensures { result ≡ word % 2 ^ 16 }
{
    (word & 0xffff) as u16
}

// The lower halves of words.
fn lower_halves(heap: Global, words: &[u32]) -> Result<Vec<u16>, AllocError>
    ensures { IfOk result (λ v. v.items ≡ map (λ w. w % 2 ^ 16) words.now) }
{
    words.iter().map(|word| lower_half(*word)).collect(heap)
}

impl From<FileFault> for ReadFault {
    ghost from_gives = { λ e r. r ≡ File e };

    fn from(fault: FileFault) -> ReadFault {
        ReadFault::File(fault)
    }
}

impl From<AllocError> for ReadFault {
    ghost from_gives = { λ _ r. r ≡ NoMemory };

    fn from(_: AllocError) -> ReadFault {
        ReadFault::NoMemory
    }
}

// The make that the first of the lines names.
fn first_make(lines: &mut Lines) -> Result<Make, FileFault>
    ensures answer { result ≡ head_make (lines_left lines.old) }
    ensures after { lines_left lines.new ≡ others (lines_left lines.old) }
{
    let line = lines.next().ok_or(FileFaultKind::RegisterLine.at(0))?;
    named_make(&line).ok_or(FileFaultKind::RegisterLine.at(line.place))
}

// Reads a register list: which make of bank, and its words. What is wrong with the text is told whatever the memory.
pub fn read_registers(heap: Global, text: &[u8]) -> Result<RegisterList, ReadFault>
    ensures { ReadAs result (registers_of text.now) }
{
    let mut lines = Lines::of(text);
    let make = first_make(&mut lines)?;
    let mut words = ArrayVec::new();
    read_words(make, lines, &mut words)?;
    match make {
        Make::Word => Ok(RegisterList::WordList(Vec::from_slice(heap, words.as_slice())?)),
        Make::Mask => Ok(RegisterList::MaskList(lower_halves(heap, words.as_slice())?)),
    }
}
