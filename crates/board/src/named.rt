// Marks and styles, as clock lines name them.
ghost use Rattle.board.specs.Boards.{marks_named, divider_style, mux_style};

use crate::line::Named;
use part::Marks;
use piece::{DividerStyle, MuxStyle};

impl Named for Marks {
    ghost value_named = { marks_named };

    fn named(word: &[u8]) -> Option<Self> {
        let (lift, still) = match word {
            b"-" => (false, false),
            b"l" => (true, false),
            b"s" => (false, true),
            b"ls" => (true, true),
            _ => return None,
        };
        Some(Marks { lift, still })
    }
}

// Each style has words of its own.
impl Named for DividerStyle {
    ghost value_named = { divider_style };

    fn named(word: &[u8]) -> Option<Self> {
        match word {
            b"zero" => Some(DividerStyle::Zero),
            b"one" => Some(DividerStyle::One),
            _ => None,
        }
    }
}

impl Named for MuxStyle {
    ghost value_named = { mux_style };

    fn named(word: &[u8]) -> Option<Self> {
        match word {
            b"plain" => Some(MuxStyle::Plain),
            b"bit" => Some(MuxStyle::Bit),
            _ => None,
        }
    }
}
