// Text composed in a lent line, byte after byte.
#![tactic(auto)]

ghost use Rattle.std.specs.Prelude.{◌≡◌, ◌<◌, ◌∷◌};
ghost use Rattle.ground.specs.Kit.{[], take};
ghost use Rattle.text.specs.Numbers.{glyph_of, hex_of, hexes_of, decimal_of};
ghost use Rattle.text.specs.Plain.{plain_byte, plain_of};
ghost use Rattle.text.specs.Reading.{with_digit, number_of};
ghost use Rattle.text.specs.Ink.{begun, ink, inked, put_all, put_on};

use std::fmt;

// A lent line, with the place of the next byte.
#[derive(Drop)]
pub struct Line<'a> {
    pub bytes: &'a mut [u8],
    pub at: usize,
}

impl<'a> Line<'a> {
    pub fn new(bytes: &'a mut [u8]) -> Line<'a>
        ensures { inked result ≡ begun bytes.entry.ghost_name 0 bytes.old }
    {
        Line { bytes, at: 0 }
    }

    // The bytes before the place.
    pub fn said(&self) -> &[u8]
        ensures { result.now ≡ take self.now.at self.now.bytes.now }
    {
        &self.bytes[..self.at.min(self.bytes.len())]
    }

    pub fn put(&mut self, b: u8)
        ensures { inked self.new ≡ put_on (inked self.old) (b ∷ []) }
    {
        self.at = put_at(self.bytes, self.at, b);
    }

    // Three loops that put byte by byte: one over a closure would need a clause of what it puts, longer than a loop. This one holds the place and
    // the bytes in locals: a byte that is stored may stand in their stead in `self`, for all that the compiler knows.
    #[tactic(auto, unfolding(crate::specs::Ink::put_all))]
    pub fn put_all(&mut self, text: &[u8])
        ensures { inked self.new ≡ put_on (inked self.old) text.now }
    {
        let line = &mut *self.bytes;
        let mut next = self.at;
        for b in text {
            next = put_at(line, next, *b);
        }
        self.at = next;
    }

    // Two hexadecimal digits.
    #[tactic(auto, unfolding(crate::specs::Numbers::hex_of, crate::specs::Ink::put_all))]
    pub fn put_hex(&mut self, b: u8)
        ensures { inked self.new ≡ put_on (inked self.old) (hex_of b) }
    {
        self.put(glyph(b / 16));
        self.put(glyph(b % 16));
    }

    // Two hexadecimal digits for each byte, with nothing between.
    #[tactic(auto, unfolding(crate::specs::Ink::put_all))]
    pub fn put_hexes(&mut self, bytes: &[u8])
        ensures { inked self.new ≡ put_on (inked self.old) (hexes_of bytes.now) }
    {
        for b in bytes {
            self.put_hex(*b);
        }
    }

    #[tactic(auto, unfolding(crate::specs::Plain::plain_byte, crate::specs::Ink::put_all))]
    fn put_plain_byte(&mut self, b: u8)
        ensures { inked self.new ≡ put_on (inked self.old) (plain_byte b) }
    {
        if (b' ' <= b) & (b <= b'~') & (b != b'\\') {
            self.put(b);
        } else {
            self.put_all(b"\\x");
            self.put_hex(b);
        }
    }

    // A text of which a reader sees every byte.
    #[tactic(auto, unfolding(crate::specs::Ink::put_all))]
    pub fn put_plain(&mut self, text: &[u8])
        ensures { inked self.new ≡ put_on (inked self.old) (plain_of text.now) }
    {
        for byte in text {
            self.put_plain_byte(*byte);
        }
    }

    // A number in decimal, by hand, as the promise says which digits: the last first, at the end of 20 places, which hold any number of 64 bits.
    pub fn put_decimal(&mut self, n: u64)
        ensures { inked self.new ≡ put_on (inked self.old) (decimal_of n) }
    {
        let mut digits = [0u8; 20];
        let mut i = 19;
        let mut rest = n;
        digits[19] = b'0' + (n % 10) as u8;
        // no `for`: it ends with the number's first digit
        while (9 < rest) & (0 < i) {
            rest /= 10;
            i -= 1;
            digits[i] = b'0' + (rest % 10) as u8;
        }
        self.put_all(&digits[i..]);
    }
}

impl fmt::Write for Line<'_> {
    ghost write_str_gives = { λ s bs t. inked t ≡ put_on (inked s) bs };

    #[tactic(auto, unfolding(crate::specs::Ink::put_all))]
    fn write_str(&mut self, part: &str) -> fmt::Result {
        self.put_all(part.as_bytes());
        Ok(())
    }
}

// A byte at a place of a line, and the place behind it; a line that is full is left as it is.
#[tactic(auto, unfolding(crate::specs::Ink::put_all), using(std::proofs::lemmas::Bool::Decides::nat_tests))]
fn put_at(line: &mut [u8], at: usize, b: u8) -> usize
    ensures { ink result line.new ≡ put_all (ink at line.old) (b ∷ []) }
{
    if at < line.len() {
        line[at] = b;
        at + 1
    } else {
        at
    }
}

// A digit below 16, in ASCII.
#[tactic(auto, unfolding(crate::specs::Numbers::glyph_of), using(std::proofs::lemmas::Bool::Decides::nat_tests))]
fn glyph(digit: u8) -> u8
    requires { digit < 16 }
    ensures { result ≡ glyph_of digit }
{
    if digit < 10 {
        b'0' + digit
    } else {
        b'a' + (digit - 10)
    }
}

// A number with a digit more behind it.
#[tactic(auto, unfolding(crate::specs::Reading::with_digit), using(std::proofs::lemmas::Bool::Decides::nat_tests))]
fn with_digit(n: u64, b: u8) -> Option<u64>
    ensures { result ≡ with_digit n b }
{
    let digit = b.checked_sub(b'0')?;
    if 9 < digit {
        return None;
    }
    n.checked_mul(10)?.checked_add(u64::from(digit))
}

// The number that a text of digits says.
#[tactic(auto, unfolding(crate::specs::Reading::after, crate::specs::Reading::number_of), using(crate::proofs::Numerals::says_none, std::proofs::lemmas::Bool::Decides::nat_tests))]
pub fn number(text: &[u8]) -> Option<u64>
    ensures { result ≡ number_of text.now }
{
    if text.is_empty() {
        return None;
    }
    let mut n = 0;
    for digit in text {
        n = with_digit(n, *digit)?;
    }
    Some(n)
}
