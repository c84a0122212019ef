// How a listing shows a clock and what its part says.
ghost use Rattle.std.specs.Prelude.{Some};
ghost use Rattle.piece.specs.Shown.{clock_of};
ghost use Rattle.listing.specs.Listings.{place_text, marks_text, band_text, part_text, clock_text};

use bank::Place;
use part::{Band, Marks, Part};
use piece::Piece;
use std::fmt;

#[derive(Clone, Copy)]
struct ShownPlace(Option<Place>);

impl fmt::Display for ShownPlace {
    ghost output = { λ p. Some (place_text p.0) };

    fn fmt<W: fmt::Write>(&self, f: &mut fmt::Formatter<W>) -> fmt::Result {
        match self.0 {
            Some(place) => write!(f, "{} {} {}", place.register, place.shift, place.width),
            None => f.write_str("-"),
        }
    }
}

#[derive(Clone, Copy)]
struct ShownMarks(Marks);

impl fmt::Display for ShownMarks {
    ghost output = { λ m. Some (marks_text m.0.lift m.0.still) };

    fn fmt<W: fmt::Write>(&self, f: &mut fmt::Formatter<W>) -> fmt::Result {
        f.write_str(match (self.0.lift, self.0.still) {
            (false, false) => "-",
            (true, false) => "l",
            (false, true) => "s",
            (true, true) => "ls",
        })
    }
}

#[derive(Clone, Copy)]
struct ShownBand(Band);

impl fmt::Display for ShownBand {
    ghost output = { λ b. Some (band_text b.0) };

    fn fmt<W: fmt::Write>(&self, f: &mut fmt::Formatter<W>) -> fmt::Result {
        write!(f, "{} {}", self.0.lo, self.0.hi)
    }
}

#[derive(Clone, Copy)]
struct ShownPart<'a, P>(&'a P);

impl<'a, P: Part> fmt::Display for ShownPart<'a, P> {
    ghost output = { λ p. Some (part_text (P.meaning p.0.now)) };

    fn fmt<W: fmt::Write>(&self, f: &mut fmt::Formatter<W>) -> fmt::Result {
        let part = self.0;
        let count = part.row_count();
        let field = ShownPlace(part.rate_field());
        let gate = ShownPlace(part.gate_bit());
        // asked for apart, as elsewhere: one answer of both is no plainer
        let marks = ShownMarks(Marks {
            lift: part.lift(),
            still: part.still(),
        });
        let band = ShownBand(part.band());
        write!(f, "rows {count} field {field} gate {gate}")?;
        write!(f, " marks {marks} band {band}")
    }
}

// A clock of a board: its number, its name, its kind, and what its part says.
#[derive(Clone, Copy)]
pub(crate) struct ShownClock<'a>(pub(crate) &'a Piece);

impl<'a> fmt::Display for ShownClock<'a> {
    ghost output = { λ p. Some (clock_text (clock_of p.0.now)) };

    fn fmt<W: fmt::Write>(&self, f: &mut fmt::Formatter<W>) -> fmt::Result {
        let piece = self.0;
        let number = piece.number();
        let name = piece.name;
        let kind = piece.kind_word();
        let part = ShownPart(piece);
        writeln!(f, "{number} {name} {kind} {part}")
    }
}
