// What records must print, and what comes of it.
use crate::Stop;
use crate::records::{Script, print};
use shell::Voice;
use text::Line;

// A printed line is expected whole, or without its number, in small digits or large ones.
fn agrees(line: &[u8], expected: &[u8]) -> bool {
    if line.eq_ignore_ascii_case(expected) {
        return true;
    }
    match line.iter().position(|c| *c == b' ') {
        Some(space) => line[space + 1..].eq_ignore_ascii_case(expected),
        None => false,
    }
}

// The start of each line of a difference.
fn put_place(first: &mut Line, place: u64) {
    first.put_all(b"line ");
    first.put_decimal(place);
}

// The first difference, for the end.
fn note(first: &mut Line, place: u64, expected: &[u8], printed: &[u8]) {
    if 0 < first.at {
        return;
    }
    put_place(first, place);
    first.put_all(b": expected ");
    first.put_plain(expected);
    first.put(b'\n');
    put_place(first, place);
    if printed.is_empty() {
        first.put_all(b": nothing was printed");
    } else {
        first.put_all(b": printed  ");
        first.put_plain(printed);
    }
    first.put(b'\n');
}

impl Script<'_> {
    fn pass(&mut self) {
        self.passed = self.passed.saturating_add(1);
        if self.bad {
            self.unexpected = self.unexpected.saturating_sub(1);
        }
    }

    // At the end of a line that says what the record before must print.
    pub(crate) fn judge(&mut self, first: &mut Line, place: u64, expected: &[u8]) {
        let printed = self.printed();
        if !printed.is_empty() && agrees(printed, expected) {
            self.pass();
        } else {
            note(first, place, expected, printed);
            self.failed = self.failed.saturating_add(1);
        }
        self.said = 0;
        self.bad = false;
    }

    pub(crate) fn status(&self) -> u8 {
        if self.failed == 0 && self.unexpected == 0 {
            shell::AS_HOPED
        } else {
            shell::WANTING
        }
    }

    // Bad records that no line expects.
    fn tell_unexpected(&self, voice: &mut Voice) -> Result<(), Stop> {
        let mut room = [0; 64];
        let mut line = Line::new(&mut room);
        line.put_all(b"bad records that no line expects: ");
        line.put_decimal(self.unexpected);
        line.put(b'\n');
        print(voice, line.said())
    }

    fn tell_sum(&self, voice: &mut Voice, first: &[u8]) -> Result<(), Stop> {
        let mut room = [0; 64];
        let mut line = Line::new(&mut room);
        line.put_decimal(self.passed);
        line.put_all(b" passed, ");
        line.put_decimal(self.failed);
        line.put_all(b" failed\n");
        print(voice, first)?;
        print(voice, line.said())
    }

    // What was not as expected, and the sum, where anything was.
    pub(crate) fn sum_up(&self, voice: &mut Voice, first: &[u8]) -> Result<(), Stop> {
        let expects = 0 < self.passed || 0 < self.failed;
        // where the lines are printed and nothing is expected, they show what is bad
        if 0 < self.unexpected && (expects || self.quiet) {
            self.tell_unexpected(voice)?;
        }
        if expects {
            self.tell_sum(voice, first)?;
        }
        Ok(())
    }
}
