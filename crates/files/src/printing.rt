// What is printed: writes, answers, faults and register lists. Each line is a short text, which is printed into a lent buffer
// whole or not at all.
ghost use Rattle.std.specs.Prelude.{◌≡◌, ◌+◌, ◌≤◌, [], ◌∷◌, ◌++◌, map, length, take, drop, Some, Ok, decimal};
ghost use Rattle.std.specs.List.{flat_map};
ghost use Rattle.words.specs.Cutting.{lines_of};
ghost use Rattle.files.specs.Writes.{write_in};
ghost use Rattle.words.specs.Numbers.{hex_digits};
ghost use Rattle.files.specs.Printing.{holds, write_text, ok_text, no_text, no_at_text, make_text, word_text, registers_text, print_of, print_after};
ghost use Rattle.files.specs.Registers.{Readable, registers_of};

use crate::fault::PrintFault;
use crate::list::Make;
use crate::text::ShortText;
use arrayvec::ArrayString;
use bank::Entry;
use itoa::Buffer;

// A text made of pieces, which have at most 32 bytes together.
fn joined(pieces: &[&str]) -> ShortText
    requires { length (flat_map (λ p. p.now) pieces.now) ≤ 32 }
    ensures { holds result ≡ flat_map (λ p. p.now) pieces.now }
{
    let mut text = ArrayString::new();
    for piece in pieces {
        text.push_str(piece);
    }
    ShortText { text }
}

// The lowest `count` hexadecimal digits of a number, the highest of them first, behind a text. The formats that would print them,
// `write!` and those of the crate `hex`, answer errors that cannot come up here, and are no plainer.
fn push_hex(text: &mut ArrayString<32>, count: u8, n: u32)
    requires { length text.old.bytes + count ≤ 32 }
    ensures bytes { text.new.bytes ≡ text.old.bytes ++ hex_digits count n }
    ensures len { length text.new.bytes ≡ length text.old.bytes + count }
{
    if count == 0 {
        return;
    }
    push_hex(text, count - 1, n / 16);
    text.push(char::from_digit(n % 16, 16).unwrap());
}

impl ShortText {
    // The bytes of the text. A name has such a function too; a trait of both, `AsRef` or one of our own, is no plainer.
    pub fn as_bytes(&self) -> &[u8]
        ensures { result.now ≡ holds self.now }
    {
        self.text.as_str().as_bytes()
    }

    // Writes the text into a buffer that has room for it from `at` on, and answers where it ends.
    fn put(&self, out: &mut [u8], at: usize) -> usize
        requires { at + length (holds self.now) ≤ length out.old }
        ensures end { result ≡ at + length (holds self.now) }
        ensures after { out.new ≡ take at out.old ++ (holds self.now ++ drop (at + length (holds self.now)) out.old) }
    {
        let bytes = self.as_bytes();
        let end = at + bytes.len();
        out[at..end].copy_from_slice(bytes);
        end
    }

    // Prints the text at the front of a buffer, and answers how many bytes it has; a buffer that is too short is left as it was.
    pub fn print(&self, out: &mut [u8]) -> Result<usize, PrintFault>
        ensures answer { result ≡ print_of out.old (holds self.now) }
        ensures after { out.new ≡ print_after out.old (holds self.now) }
    {
        let bytes = self.as_bytes();
        if bytes.len() > out.len() {
            return Err(PrintFault::ShortBuffer);
        }
        Ok(self.put(out, 0))
    }
}

// A write: `w REG SHIFT WIDTH VALUE`. Read as a line of a script, it is that write again.
pub fn write_line(entry: Entry) -> ShortText
    ensures text { holds result ≡ write_text entry }
    ensures reads_back { map write_in (lines_of (write_text entry)) ≡ Some entry ∷ [] }
{
    let place = entry.place;
    joined(&[
        "w ",
        Buffer::new().format(place.register),
        " ",
        Buffer::new().format(place.shift),
        " ",
        Buffer::new().format(place.width),
        " ",
        Buffer::new().format(entry.value.0),
        "\n",
    ])
}

// What is printed of a call that was accepted.
pub fn ok_line() -> ShortText
    ensures { holds result ≡ ok_text }
{
    joined(&["ok\n"])
}

// What is printed of a call that was refused: its number, which the refusals of every layer have. A trait of refusals, to print
// one, is no plainer.
pub fn no_line(number: u8) -> ShortText
    ensures { holds result ≡ no_text number }
{
    joined(&["no ", Buffer::new().format(number), "\n"])
}

// What is printed of a fault in a file: its number and its place. For a caller that has these two, a `FileFault` to hold them is no
// plainer.
pub fn no_at_line(number: u8, place: usize) -> ShortText
    ensures { holds result ≡ no_at_text number place }
{
    joined(&[
        "no ",
        Buffer::new().format(number),
        " ",
        Buffer::new().format(place),
        "\n",
    ])
}

// A number in decimal, alone.
pub fn number_text(number: u64) -> ShortText
    ensures { holds result ≡ decimal number }
{
    joined(&[Buffer::new().format(number)])
}

// The first line of a register list.
pub fn make_line(make: Make) -> ShortText
    ensures { holds result ≡ make_text make }
{
    match make {
        Make::Word => joined(&["word\n"]),
        Make::Mask => joined(&["mask\n"]),
    }
}

// The line of one word of a register list.
pub fn word_line(word: u32) -> ShortText
    ensures { holds result ≡ word_text word }
{
    let mut text = ArrayString::new();
    push_hex(&mut text, 8, word);
    text.push_str("\n");
    ShortText { text }
}

// Prints a register list at the front of a buffer, whole or not at all.
pub fn print_registers(make: Make, words: &[u32], out: &mut [u8]) -> Result<usize, PrintFault>
    ensures answer { result ≡ print_of out.old (registers_text make words.now) }
    ensures after { out.new ≡ print_after out.old (registers_text make words.now) }
    ensures reads_back { Readable make words.now → registers_of (registers_text make words.now) ≡ Ok (record { make = make; words = words.now }) }
{
    // each line of a word has 9 bytes, the first line 5; the buffer is lent, and `at` says how much of it is written
    if out.len() < 5 || words.len() > (out.len() - 5) / 9 {
        return Err(PrintFault::ShortBuffer);
    }
    let mut at = make_line(make).put(out, 0);
    for word in words {
        at = word_line(*word).put(out, at);
    }
    Ok(at)
}
