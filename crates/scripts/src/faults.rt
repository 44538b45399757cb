// What is wrong with a text, in one line: where, and one cause.
use crate::chars::Scan;
use shell::Voice;
use text::Line;

// How much of a long word is shown.
const SHOWN: usize = 40;

const MESSAGE_BYTES: usize = 400;

#[derive(Clone, Copy, PartialEq, Eq)]
pub(crate) enum Cause {
    NotHex,
    NotTwoDigits,
    NotDecimal,
    TooLarge,
    NoSuchWord,
    NoNumber,
    NoByte,
    OneTooMany,
    Over12,
    Over512,
    NotComplete,
    LongWord,
    LoneCr,
    NothingExpected,
}

impl Cause {
    fn text(self) -> &'static [u8] {
        match self {
            Cause::NotHex => b"not a hex digit",
            Cause::NotTwoDigits => b"a byte has two digits",
            Cause::NotDecimal => b"not a decimal digit",
            Cause::TooLarge => b"the number is too large",
            Cause::NoSuchWord => b"no such word",
            Cause::NoNumber => b"a number is missing",
            Cause::NoByte => b"a byte is missing",
            Cause::OneTooMany => b"one word too many",
            Cause::Over12 => b"more than 12 bytes",
            Cause::Over512 => b"more than 512 bytes",
            Cause::NotComplete => b"the record before is not complete",
            Cause::LongWord => b"the word is too long",
            Cause::LoneCr => b"a CR without a LF",
            Cause::NothingExpected => b"nothing is expected",
        }
    }
}

// A cause, its column, and which bytes of the word at hand show it.
#[derive(Clone, Copy, PartialEq, Eq)]
pub(crate) struct Fault {
    cause: Cause,
    column: u64,
    from: usize,
    upto: usize,
}

impl Fault {
    // At some bytes of the word at hand, and at their column.
    pub(crate) fn at(scan: &Scan, cause: Cause, from: usize, upto: usize) -> Fault {
        Fault {
            cause,
            column: scan.starts.saturating_add(from as u64),
            from,
            upto,
        }
    }

    // Of the whole word.
    pub(crate) fn of_word(scan: &Scan, cause: Cause) -> Fault {
        Fault::at(scan, cause, 0, scan.word.said().len())
    }

    // At the byte that is read: something is missing where the line ends.
    pub(crate) fn here(scan: &Scan, cause: Cause) -> Fault {
        Fault {
            cause,
            column: scan.column,
            from: 0,
            upto: 0,
        }
    }

    fn shown<'a>(&self, word: &'a [u8]) -> &'a [u8] {
        let end = self.upto.min(word.len());
        let from = self.from.min(end);
        &word[from..end.min(from + SHOWN)]
    }

    // One line on standard error, and the run is over.
    pub(crate) fn report(&self, voice: &mut Voice, scan: &Scan) {
        let mut room = [0; MESSAGE_BYTES];
        let mut line = Line::new(&mut room);
        line.put_all(b"scripts: line ");
        line.put_decimal(scan.line);
        line.put_all(b", column ");
        line.put_decimal(self.column);
        line.put_all(b": ");
        line.put_all(self.cause.text());
        let shown = self.shown(scan.word.said());
        if !shown.is_empty() {
            line.put_all(b": '");
            line.put_plain(shown);
            line.put(b'\'');
        }
        line.put(b'\n');
        voice.trouble(line.said());
    }
}
