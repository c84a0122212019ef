// Names and fixed words in the files.
ghost use Rattle.std.specs.Prelude.{◌≡◌, Some, codes};
ghost use Rattle.std.specs.Option.{option_map};
ghost use Rattle.std.specs.Str.{bytes_eq};
ghost use Rattle.std.specs.Fmt.{styled_text};
ghost use Rattle.words.specs.Names.{is_name, name_byte, all_name_bytes};
ghost use Rattle.words.specs.Spelling.{spelled, name_in};

use crate::name::Name;
use std::{fmt, str};

fn is_name_byte(b: u8) -> bool
    ensures { result ≡ name_byte b }
{
    matches!(b, b'a'..=b'z' | b'0'..=b'9' | b'_')
}

fn has_name_bytes(word: &[u8]) -> bool
    ensures { result ≡ all_name_bytes word.now }
{
    word.iter().all(|b| is_name_byte(*b))
}

// Whether a word is a name: 1 to 12 of a-z, 0-9 and _.
pub fn is_name(word: &[u8]) -> bool
    ensures { result ≡ is_name word.now }
{
    word.len() > 0 && word.len() <= 12 && has_name_bytes(word)
}

// Whether a word is a fixed one, as `mask`, by the library's equality.
pub fn is_word(word: &[u8], fixed: &[u8]) -> bool
    ensures { result ≡ bytes_eq word.now fixed.now }
{
    word == fixed
}

impl Name {
    // The name `_`.
    pub fn blank() -> Name
        ensures { spelled result ≡ codes "_" }
    {
        Name {
            bytes: [b'_'; 12],
            len: 1,
        }
    }

    // The name that a word is, or none.
    pub fn of(word: &[u8]) -> Option<Name>
        ensures { option_map spelled result ≡ name_in word.now }
    {
        if !is_name(word) {
            return None;
        }
        let len = word.len();
        let mut bytes = [0; 12];
        bytes[0..len].copy_from_slice(word);
        Some(Name {
            bytes,
            len: len as u8,
        })
    }

    // How the name is spelled. A printed line has such a function too; a trait of both, `AsRef` or one of our own, is no plainer.
    pub fn as_bytes(&self) -> &[u8]
        ensures { result.now ≡ spelled self.now }
    {
        &self.bytes[0..self.len as usize]
    }

    fn as_text(&self) -> &str
        ensures { result.now ≡ spelled self.now }
    {
        str::from_utf8(self.as_bytes()).unwrap()
    }
}

impl fmt::Display for Name {
    ghost output = { λ n. Some (spelled n) };

    ghost styled_output = { λ n style. Some (styled_text style (spelled n)) };

    fn fmt<W: fmt::Write>(&self, f: &mut fmt::Formatter<W>) -> fmt::Result {
        f.pad(self.as_text())
    }
}
