// The words of a line, and the record that they say.
use crate::bytes_of::looks_so;
use crate::chars::{Act, Scan};
use crate::faults::{Cause, Fault};
use crate::names::{Field, Form, Verb};
use record::{COMMAND_BYTES, HEADER_BYTES, PIECE_BYTES};
use text::Line;

const PACKET_BYTES: usize = 12;

// The record from a place behind its header on.
fn behind_header(record: &mut [u8], at: usize) -> Line {
    Line {
        bytes: record,
        at: HEADER_BYTES.saturating_add(at),
    }
}

// A number that fits goes into its bytes of the record.
fn put_number(record: &mut [u8], field: Field, number: u64) -> Option<()> {
    let mut place = behind_header(record, field.at);
    match field.form {
        Form::Two => place.put_all(&u16::try_from(number).ok()?.to_be_bytes()),
        Form::Four => place.put_all(&u32::try_from(number).ok()?.to_be_bytes()),
        Form::LittleEndian => place.put_all(&u16::try_from(number).ok()?.to_le_bytes()),
        Form::One | Form::Hex | Form::Protected => place.put(u8::try_from(number).ok()?),
    }
    Some(())
}

impl Scan<'_> {
    // Why the word from a place on is no number that fits.
    pub(crate) fn no_number(&self, from: usize) -> Fault {
        let word = self.word.said();
        if word.len() <= from {
            return Fault::at(self, Cause::NoNumber, word.len(), word.len());
        }
        match word[from..].iter().position(|c| !c.is_ascii_digit()) {
            Some(other) => Fault::at(self, Cause::NotDecimal, from + other, from + other + 1),
            None => Fault::at(self, Cause::TooLarge, from, word.len()),
        }
    }

    // A byte of two digits that stands once.
    fn hex_said(&self) -> Result<u64, Fault> {
        let (byte, _) = self.bytes_said()?;
        if 2 < self.word.said().len() {
            return Err(Fault::of_word(self, Cause::NotTwoDigits));
        }
        Ok(u64::from(byte))
    }

    fn number_said(&self, form: Form) -> Result<u64, Fault> {
        let word = self.word.said();
        match form {
            Form::Hex => self.hex_said(),
            Form::Protected if word == b"protected".as_slice() => Ok(1),
            Form::Protected => Err(Fault::of_word(self, Cause::NoSuchWord)),
            _ => text::number(word).ok_or_else(|| self.no_number(0)),
        }
    }

    // What the next word has to be.
    fn field(&self) -> Option<Field> {
        self.verb?.field(self.words)
    }

    // A number behind a name.
    fn take_field(&mut self, record: &mut Line) -> Result<(), Fault> {
        let field = self.field().ok_or(Fault::of_word(self, Cause::OneTooMany))?;
        let number = self.number_said(field.form)?;
        put_number(record.bytes, field, number).ok_or_else(|| self.no_number(0))?;
        self.words = self.words.saturating_add(1);
        Ok(())
    }

    // A byte of a packet, or of a piece, as often as it stands; `most` bytes have room behind the header.
    fn take_listed(&mut self, record: &mut Line, most: usize, over: Cause) -> Result<(), Fault> {
        let (byte, times) = self.bytes_said()?;
        if most.saturating_sub(self.words) < times {
            return Err(Fault::at(self, over, 0, 0));
        }
        let mut place = behind_header(record.bytes, self.words);
        for _ in 0..times {
            place.put(byte);
        }
        self.words = self.words.saturating_add(times);
        Ok(())
    }

    // A record by its name starts from zeros, where no other is begun.
    fn begin(&mut self, record: &mut Line, verb: Verb) -> Result<Option<Act>, Fault> {
        if 0 < record.at {
            return Err(Fault::at(self, Cause::NotComplete, 0, 0));
        }
        record.bytes.fill(0);
        if let Verb::Named(code) = verb {
            behind_header(record.bytes, 0).put(code);
        }
        self.verb = Some(verb);
        Ok(Some(Act::Begin))
    }

    // Bytes of a record; `xx*0` is none.
    fn take_raw(&mut self) -> Result<Option<Act>, Fault> {
        let (byte, times) = self.bytes_said()?;
        if times == 0 {
            return Ok(None);
        }
        self.words = self.words.saturating_add(1);
        Ok(Some(Act::Add(byte, times)))
    }

    // Bytes may stand without a word before them.
    fn take_first(&mut self, record: &mut Line) -> Result<Option<Act>, Fault> {
        match Verb::of(self.word.said()) {
            Some(verb) => self.begin(record, verb),
            None if looks_so(self.word.said()) => {
                self.verb = Some(Verb::Raw);
                self.take_raw()
            }
            None => Err(Fault::of_word(self, Cause::NoSuchWord)),
        }
    }

    // What is expected is its words with a space between.
    fn take_expected(&mut self) {
        if 0 < self.expected.at {
            self.expected.put(b' ');
        }
        self.expected.put_all(self.word.said());
    }

    // The next word of a line.
    pub(crate) fn take_word(&mut self, record: &mut Line) -> Result<Option<Act>, Fault> {
        match self.verb {
            None => return self.take_first(record),
            Some(Verb::Raw) => return self.take_raw(),
            Some(Verb::Expected) => self.take_expected(),
            Some(Verb::Command) => self.take_listed(record, PACKET_BYTES, Cause::Over12)?,
            Some(Verb::Feed) => self.take_listed(record, PIECE_BYTES, Cause::Over512)?,
            Some(_) => self.take_field(record)?,
        }
        Ok(None)
    }

    // What is not there at the end of a line.
    fn missing(&self) -> Option<Cause> {
        match self.verb? {
            Verb::Expected if self.expected.at == 0 => Some(Cause::NothingExpected),
            Verb::Raw | Verb::Command if self.words == 0 => Some(Cause::NoByte),
            verb => match verb.field(self.words)?.form {
                Form::Protected => None,
                Form::Hex => Some(Cause::NoByte),
                _ => Some(Cause::NoNumber),
            },
        }
    }

    // The line is whole: so is the record that it says.
    fn said(&self, record: &mut Line) -> Option<Act> {
        let (length, kind) = match self.verb? {
            Verb::Expected => return Some(Act::Judge(self.line)),
            Verb::Raw => return None,
            // lengths and kinds as the paper has them, not as `record` reads them
            Verb::Insert => (6, 1),
            Verb::Eject => (4, 2),
            Verb::Command | Verb::Named(_) => (COMMAND_BYTES, 3),
            Verb::Feed => (HEADER_BYTES + self.words.min(PIECE_BYTES), 4),
            Verb::Pull => (6, 5),
        };
        let [low, high, ..] = length.to_le_bytes();
        Line::new(record.bytes).put_all(&[low, high, kind]);
        Some(Act::Play(length))
    }

    pub(crate) fn end_line(&mut self, record: &mut Line) -> Result<Option<Act>, Fault> {
        if let Some(cause) = self.missing() {
            return Err(Fault::here(self, cause));
        }
        let act = self.said(record);
        self.new_line();
        Ok(act)
    }
}
