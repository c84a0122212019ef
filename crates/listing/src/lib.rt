// Listing the clocks of a board file.
#![tactic(auto)]

mod shown;

ghost use Rattle.std.specs.Prelude.{◌≡◌, map, IfOk, string_bytes};
ghost use Rattle.std.specs.List.{flat_map};
ghost use Rattle.piece.specs.Shown.{clock_of};
ghost use Rattle.listing.specs.Listings.{clock_text, fault_text, listing_of};

use crate::shown::ShownClock;
use board::read_board;
use files::{FileFault, no_at_line, word_at_fault};
use piece::Piece;
use std::alloc::{AllocError, Global};

// A line for each clock.
fn clock_lines(heap: Global, pieces: &[Piece]) -> Result<String, AllocError>
    ensures { IfOk result (λ s. string_bytes s ≡ flat_map clock_text (map clock_of pieces.now)) }
{
    let mut out = String::new(heap);
    for piece in pieces {
        write!(out, "{}", ShownClock(piece))?;
    }
    Ok(out)
}

// What is wrong with a board file, and the word at fault on a line of its own.
fn fault_lines(heap: Global, text: &[u8], fault: FileFault) -> Result<Vec<u8>, AllocError>
    ensures { IfOk result (λ v. v.items ≡ fault_text text.now fault) }
{
    let mut out = Vec::new(heap);
    out.extend_from_slice(no_at_line(fault.number(), fault.place).as_bytes())?;
    if let Some(word) = word_at_fault(text, b"", fault) {
        out.extend_from_slice(b"word ")?;
        out.extend_from_slice(word)?;
        out.extend_from_slice(b"\n")?;
    }
    Ok(out)
}

// Everything that is printed for the text of a board file: a line for each clock, or what is wrong with it. Want of memory is the
// one refusal.
pub fn listing(heap: Global, text: &[u8]) -> Result<Vec<u8>, AllocError>
    ensures { IfOk result (λ v. v.items ≡ listing_of text.now) }
{
    // as long as the list that a controller lends
    let mut list = [Piece::blank(); 64];
    match read_board(text, &mut list) {
        Ok(count) => Ok(clock_lines(heap, &list[..count])?.into_bytes()),
        Err(fault) => fault_lines(heap, text, fault),
    }
}
