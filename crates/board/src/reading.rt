// Reading a whole board.
ghost use Rattle.std.specs.Prelude.{◌≡◌, ◌≤◌, [], if◌then◌else◌, map, length, drop, Some, None, IfOk};
ghost use Rattle.piece.specs.Shown.{clock_of};
ghost use Rattle.words.specs.Cutting.{lines_left};
ghost use Rattle.board.specs.Boards.{good_lines, board_from, board_of, answer_of, list_after};

use crate::lines::read_line;
use files::{FileFault, FileFaultKind};
use piece::Piece;
use words::Lines;

// How many lines there are, where they are 1 to 64 and an LF ends each; none for any others. Nothing behind the 65th line is looked at.
fn good_lines(lines: Lines) -> Option<usize>
    ensures { result ≡ (if good_lines (lines_left lines.entry) then Some (length (lines_left lines.entry)) else None) }
{
    let mut count = 0;
    for line in lines {
        if !line.ended || count == 64 {
            return None;
        }
        count += 1;
    }
    (count > 0).then_some(count)
}

// Reads the `count` lines of a board, 1 to 64, into a list: each clock in the place of its number.
fn read_lines(lines: Lines, count: usize, list: &mut [Piece; 64]) -> Result<usize, FileFault>
    requires { (count ≡ length (lines_left lines)) × (1 ≤ count) × (count ≤ 64) }
    ensures answer { result ≡ answer_of (board_from [] (lines_left lines.entry)) }
    ensures after { map clock_of list.new ≡ list_after (board_from [] (lines_left lines.entry)) (map clock_of list.old) }
    ensures untouched { drop (length (board_from [] (lines_left lines.entry)).clocks) list.new ≡ drop (length (board_from [] (lines_left lines.entry)).clocks) list.old }
    ensures within { IfOk result (λ n. (1 ≤ n) × (n ≤ 64)) }
{
    for (n, line) in lines.enumerate() {
        list[n] = read_line(&line, &list[..n])?;
    }
    Ok(count)
}

// Reads a board: its clocks stand at the front of the list, and it answers how many there are. Where the board is at fault, the
// clocks of the lines before the fault stand in the list. Later places stay as they were. The list is lent, with a count beside it:
// a controller reads its board where nothing may be allocated.
pub fn read_board(text: &[u8], list: &mut [Piece; 64]) -> Result<usize, FileFault>
    ensures answer { result ≡ answer_of (board_of text.now) }
    ensures after { map clock_of list.new ≡ list_after (board_of text.now) (map clock_of list.old) }
    ensures untouched { drop (length (board_of text.now).clocks) list.new ≡ drop (length (board_of text.now).clocks) list.old }
    ensures within { IfOk result (λ n. (1 ≤ n) × (n ≤ 64)) }
{
    if text.len() > 32768 {
        return Err(FileFaultKind::BoardLength.at(0));
    }
    let lines = Lines::of(text);
    let count = good_lines(lines).ok_or(FileFaultKind::BoardLines.at(0))?;
    read_lines(lines, count, list)
}
