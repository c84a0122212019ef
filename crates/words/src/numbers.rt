// Numbers in the files: whole numbers, and register words of eight hexadecimal digits.
ghost use Rattle.std.specs.Prelude.{◌≡◌, ◌^◌, ◌≤◌, length, if◌then◌else◌, Some, None, nat_lt};
ghost use Rattle.words.specs.Numbers.{digit_value, radix, value_on, leading_zero, number_of, hex_word_of};

// The bases in which the files write numbers.
#[derive(Clone, Copy)]
enum Base {
    Ten = 10,
    Sixteen = 16,
}

impl Base {
    fn radix(self) -> u8
        ensures value { result ≡ radix self }
        ensures range { (2 ≤ result) × (result ≤ 16) }
    {
        self as u8
    }

    // What a byte counts as a digit, or none where it is no digit of the base.
    fn digit(self, b: u8) -> Option<u8>
        ensures { result ≡ (if nat_lt (digit_value b) (radix self) then Some (digit_value b) else None) }
    {
        let digit = match b {
            b'0'..=b'9' => b - b'0',
            b'a'..=b'f' => b - b'a' + 10,
            _ => return None,
        };
        (digit < self.radix()).then_some(digit)
    }
}

// The number that the digits of a word write in a base. By hand: the library's `parse` and `from_str_radix` take a sign, capitals and
// leading zeros, and with tests for these they are no plainer.
fn digits_in(word: &[u8], base: Base) -> Option<u64>
    requires { radix base ^ length word.now ≤ 2 ^ 64 }
    ensures { result ≡ value_on (radix base) 0 word.now }
{
    let radix = u64::from(base.radix());
    let mut n = 0;
    for b in word {
        n = n * radix + u64::from(base.digit(*b)?);
    }
    Some(n)
}

fn leads_with_zero(word: &[u8]) -> bool
    ensures { result ≡ leading_zero word.now }
{
    matches!(word, [b'0', _, ..])
}

// A number: 1 to 18 decimal digits with no sign and no leading zero.
pub fn number(word: &[u8]) -> Option<u64>
    ensures { result ≡ number_of word.now }
{
    if word.is_empty() || word.len() > 18 || leads_with_zero(word) {
        return None;
    }
    digits_in(word, Base::Ten)
}

// A register's word: exactly 8 lower-case hexadecimal digits.
pub fn hex_word(word: &[u8]) -> Option<u32>
    ensures { result ≡ hex_word_of word.now }
{
    if word.len() != 8 {
        return None;
    }
    u32::try_from(digits_in(word, Base::Sixteen)?).ok()
}
