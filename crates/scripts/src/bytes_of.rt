// Bytes as a text writes them: two digits, or `xx*N` for a byte N times.
ghost use Rattle.std.specs.Prelude.{◌<◌, IfSome};

use crate::chars::Scan;
use crate::faults::{Cause, Fault};

fn hex_digit(c: u8) -> Option<u8>
    ensures { IfSome result (λ digit. digit < 16) }
{
    match c {
        b'0'..=b'9' => Some(c - b'0'),
        b'a'..=b'f' => Some(c - b'a' + 10),
        b'A'..=b'F' => Some(c - b'A' + 10),
        _ => None,
    }
}

// Whether a line's first word is meant as a byte.
pub(crate) fn looks_so(word: &[u8]) -> bool {
    match word {
        [] => false,
        [first, _, behind, ..] => hex_digit(*first).is_some() && *behind == b'*',
        [first, ..] => hex_digit(*first).is_some(),
    }
}

impl Scan<'_> {
    fn digit(&self, at: usize) -> Result<u8, Fault> {
        match self.word.said().get(at) {
            Some(c) => hex_digit(*c).ok_or(Fault::at(self, Cause::NotHex, at, at + 1)),
            None => Err(Fault::of_word(self, Cause::NotTwoDigits)),
        }
    }

    // The byte that the word says, and how often.
    pub(crate) fn bytes_said(&self) -> Result<(u8, usize), Fault> {
        let byte = self.digit(0)? << 4 | self.digit(1)?;
        match self.word.said() {
            [_, _] => Ok((byte, 1)),
            [_, _, b'*', times @ ..] => match text::number(times) {
                Some(n) => Ok((byte, n as usize)),
                None => Err(self.no_number(3)),
            },
            _ => Err(Fault::of_word(self, Cause::NotTwoDigits)),
        }
    }
}
