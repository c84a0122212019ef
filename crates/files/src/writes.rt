// Reading a line of a script of writes.
ghost use Rattle.std.specs.Prelude.{◌≡◌, ◌++◌, IfOk, codes};
ghost use Rattle.files.specs.Printing.{write_text};
ghost use Rattle.words.specs.Cutting.{line_of, spans_left};
ghost use Rattle.files.specs.Writes.{entry_from, write_from, write_or};

use crate::fault::{FileFault, FileFaultKind};
use bank::{Entry, FieldValue, Place};
use words::{Cutter, Line, is_word, number};

// The write that four words say: a register, a shift and a width of 8 bits each, and a value of 32.
fn entry_of(register: &[u8], shift: &[u8], width: &[u8], value: &[u8]) -> Option<Entry>
    ensures { result ≡ entry_from register.now shift.now width.now value.now }
{
    let register = u8::try_from(number(register)?).ok()?;
    let shift = u8::try_from(number(shift)?).ok()?;
    let width = u8::try_from(number(width)?).ok()?;
    let value = u32::try_from(number(value)?).ok()?;
    Some(Entry {
        place: Place {
            register,
            shift,
            width,
        },
        value: FieldValue(value),
    })
}

fn write_of(mut words: Cutter) -> Option<Entry>
    ensures { result ≡ write_from (spans_left words.entry) }
{
    let kind = words.next()?;
    let register = words.next()?;
    let shift = words.next()?;
    let width = words.next()?;
    let value = words.next()?;
    if words.next().is_some() || !is_word(kind.bytes, b"w") {
        return None;
    }
    entry_of(register.bytes, shift.bytes, width.bytes, value.bytes)
}

// The write that a line says, `w REG SHIFT WIDTH VALUE`; a malformed or unended line is refused with its place. What is read is
// printed as the line itself.
pub fn read_write(line: &Line) -> Result<Entry, FileFault>
    ensures answer { result ≡ write_or (line_of line.now) }
    ensures prints_back { IfOk result (λ e. write_text e ≡ (line_of line.now).bytes ++ codes "\n") }
{
    let fault = FileFaultKind::ScriptLine.at(line.place);
    if !line.ended {
        return Err(fault);
    }
    write_of(line.words()).ok_or(fault)
}
