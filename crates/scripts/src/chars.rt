// The text, a byte at a time: words, lines, comments and titles, and what the script has to do.
use crate::faults::{Cause, Fault};
use crate::names::Verb;
use text::Line;

// What a byte of the text has the script do.
#[derive(Clone, Copy, PartialEq, Eq)]
pub(crate) enum Act {
    // another record is begun
    Begin,
    // a byte goes behind those of the record at hand, so many times
    Add(u8, usize),
    // the record of so many bytes that a line said by its name is played
    Play(usize),
    // what there is of a record is all
    Cut,
    // the same, and the next script starts
    Start,
    // so much of the title is printed
    Show(usize),
    // the line of the last record is compared with what this line of the text expects
    Judge(u64),
}

// What a byte stands in.
#[derive(Clone, Copy, PartialEq, Eq)]
enum Inside {
    Words,
    Comment,
    Title,
}

// Where the text is read, and what its line has said so far.
#[derive(Drop)]
pub(crate) struct Scan<'a> {
    // of the byte that is read, both from 1
    pub(crate) line: u64,
    pub(crate) column: u64,
    inside: Inside,
    // the byte before was a CR
    cr: bool,
    // what the line's first word asked for
    pub(crate) verb: Option<Verb>,
    // how many words came behind it; where bytes are listed, how many bytes
    pub(crate) words: usize,
    // the word at hand or a part of the title, and the column of its first byte
    pub(crate) word: Line<'a>,
    pub(crate) starts: u64,
    // what the last record has to print
    pub(crate) expected: Line<'a>,
}

impl<'a> Scan<'a> {
    pub(crate) fn new(word: &'a mut [u8], expected: &'a mut [u8]) -> Scan<'a> {
        Scan {
            line: 1,
            column: 0,
            inside: Inside::Words,
            cr: false,
            verb: None,
            words: 0,
            word: Line::new(word),
            starts: 0,
            expected: Line::new(expected),
        }
    }

    // A byte of the word at hand.
    fn letter(&mut self, c: u8) -> Result<(), Fault> {
        if self.word.at == 0 {
            self.starts = self.column;
        }
        if self.word.at == self.word.bytes.len() {
            return Err(Fault::of_word(self, Cause::LongWord));
        }
        self.word.put(c);
        Ok(())
    }

    pub(crate) fn new_line(&mut self) {
        self.line = self.line.saturating_add(1);
        self.column = 0;
        self.inside = Inside::Words;
        self.verb = None;
        self.words = 0;
        self.word.at = 0;
    }

    // A title is printed as it comes, however long it is.
    fn title_byte(&mut self, c: u8) -> Option<Act> {
        if c != b'\r' {
            self.word.put(c);
        }
        if c != b'\n' && self.word.at < self.word.bytes.len() {
            return None;
        }
        let upto = self.word.at;
        self.word.at = 0;
        if c == b'\n' {
            self.new_line();
        }
        Some(Act::Show(upto))
    }

    // So much of a title as is to be printed.
    pub(crate) fn title(&self, upto: usize) -> &[u8] {
        &self.word.bytes[..upto.min(self.word.bytes.len())]
    }

    fn end_word(&mut self, record: &mut Line) -> Result<Option<Act>, Fault> {
        if self.word.at == 0 {
            return Ok(None);
        }
        let act = self.take_word(record)?;
        self.word.at = 0;
        Ok(act)
    }

    // A byte that is neither blank nor the end of a line: a title ends the script before it and starts the next; what the record at hand
    // prints is to be compared, so what there is of it is all.
    fn mark(&mut self, c: u8) -> Result<Option<Act>, Fault> {
        let begins = self.verb.is_none() && self.word.at == 0;
        match c {
            b'>' if begins => {
                self.verb = Some(Verb::Expected);
                self.expected.at = 0;
                Ok(Some(Act::Cut))
            }
            b'=' if begins => {
                self.letter(c)?;
                self.inside = Inside::Title;
                Ok(Some(Act::Start))
            }
            _ => {
                self.letter(c)?;
                Ok(None)
            }
        }
    }

    // A byte among words.
    fn word_byte(&mut self, c: u8, record: &mut Line) -> Result<Option<Act>, Fault> {
        if !matches!(c, b' ' | b'\t' | b'\r' | b'\n' | b'#') {
            return self.mark(c);
        }
        let act = self.end_word(record)?;
        match c {
            b'#' => self.inside = Inside::Comment,
            b'\n' => return Ok(self.end_line(record)?.or(act)),
            _ => {}
        }
        Ok(act)
    }

    // The next byte of the text.
    pub(crate) fn take(&mut self, c: u8, record: &mut Line) -> Result<Option<Act>, Fault> {
        if self.cr && c != b'\n' {
            // a CR belongs to the end of a line
            return Err(Fault::here(self, Cause::LoneCr));
        }
        self.cr = c == b'\r';
        self.column = self.column.saturating_add(1);
        match self.inside {
            Inside::Words => self.word_byte(c, record),
            Inside::Title => Ok(self.title_byte(c)),
            Inside::Comment if c == b'\n' => self.end_line(record),
            Inside::Comment => Ok(None),
        }
    }
}
