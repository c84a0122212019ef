// The word at which a file is at fault.
ghost use Rattle.std.specs.Prelude.{◌≡◌};
ghost use Rattle.std.specs.Option.{option_map};
ghost use Rattle.std.specs.List.{prefix_len};
ghost use Rattle.files.specs.AtFault.{text_of, in_word, word_from, word_at_fault};

use crate::fault::{FileFault, FileFaultKind};

// The text that a fault lies in: the board, the script, or neither of them.
fn text_of<'a>(kind: FileFaultKind, board: &'a [u8], script: &'a [u8]) -> Option<&'a [u8]>
    ensures { option_map (λ x. x.now) result ≡ text_of kind board.now script.now }
{
    match kind {
        FileFaultKind::BoardLength
        | FileFaultKind::BoardLines
        | FileFaultKind::ClockLine
        | FileFaultKind::ClockName
        | FileFaultKind::ClockParent
        | FileFaultKind::ClockWord => Some(board),
        FileFaultKind::ScriptLine => Some(script),
        FileFaultKind::RegisterLine => None,
    }
}

// How many bytes the word at the front of a text has: those before the first space or LF, or all of them.
fn word_len(text: &[u8]) -> usize
    ensures { result ≡ prefix_len in_word text.now }
{
    text.iter()
        .take_while(|b| !matches!(b, b' ' | b'\n'))
        .count()
}

// The word that begins at `from`, or none where that lies past the text's end.
fn word_from(text: &[u8], from: usize) -> Option<&[u8]>
    ensures { option_map (λ x. x.now) result ≡ word_from text.now from }
{
    let rest = text.get(from..)?;
    Some(&rest[..word_len(rest)])
}

// What stands at a fault in a board or a script, up to the next space, LF or end.
pub fn word_at_fault<'a>(board: &'a [u8], script: &'a [u8], fault: FileFault) -> Option<&'a [u8]>
    ensures { option_map (λ x. x.now) result ≡ word_at_fault board.now script.now fault }
{
    word_from(text_of(fault.kind, board, script)?, fault.place)
}
