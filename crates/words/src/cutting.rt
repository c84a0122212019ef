// Cutting a text into lines and a line into words. Nothing is copied: each span is a slice of the text.
ghost use Rattle.std.specs.Prelude.{◌≡◌, ◌==◌};
ghost use Rattle.std.specs.Iterator.{YieldsFirstBy, item_count};
ghost use Rattle.std.specs.List.{position};
ghost use Rattle.words.specs.Cutting.{words_of, lines_of, span_of, line_of, spans_left, lines_left};

use crate::cutter::{Cutter, Line, Lines, Span};

// Where the first byte `mark` of a text stands, or none.
fn find(text: &[u8], mark: u8) -> Option<usize>
    ensures { result ≡ position (λ b. b == mark) text.now }
{
    text.iter().position(|b| *b == mark)
}

impl<'a> Iterator for Cutter<'a> {
    type Item = Span<'a>;

    ghost next_gives = { YieldsFirstBy span_of spans_left };

    ghost remaining = { item_count spans_left };

    // The next span, or none once the last was given.
    fn next(&mut self) -> Option<Span<'a>> {
        let rest = self.rest?;
        let place = self.at;
        let Some(end) = find(rest, self.mark) else {
            self.rest = None;
            return Some(Span { place, bytes: rest });
        };
        self.rest = Some(&rest[end + 1..]);
        self.at = place + end + 1;
        Some(Span {
            place,
            bytes: &rest[..end],
        })
    }
}

impl<'a> Line<'a> {
    // The bytes of the line.
    pub fn bytes(&self) -> &'a [u8]
        ensures { result.now ≡ (line_of self.now).bytes }
    {
        &self.text[self.place.min(self.text.len())..]
    }

    // The words of the line.
    pub fn words(&self) -> Cutter<'a>
        ensures { spans_left result ≡ words_of (line_of self.now).place (line_of self.now).bytes }
    {
        Cutter {
            rest: Some(self.bytes()),
            at: self.place,
            mark: b' ',
        }
    }
}

impl<'a> Lines<'a> {
    // The lines of a text, none of them given yet.
    pub fn of(text: &'a [u8]) -> Lines<'a>
        ensures { lines_left result ≡ lines_of text.now }
    {
        Lines { text, at: 0 }
    }
}

impl<'a> Iterator for Lines<'a> {
    type Item = Line<'a>;

    ghost next_gives = { YieldsFirstBy line_of lines_left };

    ghost remaining = { item_count lines_left };

    // The next line, or none where the text has no more.
    fn next(&mut self) -> Option<Line<'a>> {
        let text = self.text;
        let place = self.at;
        let rest = &text[place..];
        if rest.is_empty() {
            return None;
        }
        let Some(lf) = find(rest, b'\n') else {
            self.at = text.len();
            return Some(Line {
                text,
                place,
                ended: false,
            });
        };
        let end = place + lf;
        self.at = end + 1;
        Some(Line {
            text: &text[..end],
            place,
            ended: true,
        })
    }
}
