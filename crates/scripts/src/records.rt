// The records of a script, each played as soon as it is complete.
use crate::Stop;
use player::Progress;
use shell::{Options, Voice};
use state::State;
use text::Line;

// A script as far as it is played.
#[derive(Drop)]
pub(crate) struct Script<'a> {
    explain: bool,
    pub(crate) quiet: bool,
    // it has not come to a bad record
    playing: bool,
    // what there is of the next record, and its number
    pub(crate) record: Line<'a>,
    number: u64,
    state: State,
    buffer: &'a mut [u8],
    disc: &'a mut [u8],
    // the last record's line, how many bytes it has before its line feed, none where there is nothing to compare, and whether that record was bad;
    // a Line would be lent through two `&mut` at once, which gets no proof
    line: &'a mut [u8],
    pub(crate) said: usize,
    pub(crate) bad: bool,
    // that record was of bytes, and not said by its name
    raw: bool,
    pub(crate) passed: u64,
    pub(crate) failed: u64,
    // bad records that no line expects
    pub(crate) unexpected: u64,
}

pub(crate) fn print(voice: &mut Voice, text: &[u8]) -> Result<(), Stop> {
    if voice.print(text) {
        Ok(())
    } else {
        Err(Stop::Lost)
    }
}

// Prints, unless only the verdict is asked for.
pub(crate) fn show(voice: &mut Voice, quiet: bool, text: &[u8]) -> Result<(), Stop> {
    if quiet {
        return Ok(());
    }
    print(voice, text)
}

impl<'a> Script<'a> {
    pub(crate) fn new(
        options: Options,
        record: &'a mut [u8],
        buffer: &'a mut [u8],
        disc: &'a mut [u8],
        line: &'a mut [u8],
    ) -> Script<'a> {
        Script {
            explain: options.explain,
            quiet: options.quiet,
            playing: true,
            record: Line::new(record),
            number: 1,
            state: drive::power_on(),
            buffer,
            disc,
            line,
            said: 0,
            bad: false,
            raw: false,
            passed: 0,
            failed: 0,
            unexpected: 0,
        }
    }

    // The last record's line, as far as it is to be compared.
    pub(crate) fn printed(&self) -> &[u8] {
        &self.line[..self.said.min(self.line.len())]
    }

    // The script after a record.
    fn after(&mut self, step: Progress) {
        self.playing = !step.bad;
        self.record.at = 0;
        self.number = self.number.saturating_add(1);
        self.state = step.state;
        self.said = step.length.saturating_sub(1);
        self.bad = step.bad;
        if step.bad {
            self.unexpected = self.unexpected.saturating_add(1);
        }
    }

    // Plays what there is of a record, if it can be told from that.
    fn play(&mut self, voice: &mut Voice, ended: bool) -> Result<(), Stop> {
        let state = self.state;
        let number = self.number;
        let explain = self.explain;
        let step = player::step(
            state,
            number,
            self.record.said(),
            ended,
            self.buffer,
            self.disc,
            self.line,
        );
        let end = turns::put_words(explain, step, self.record.said(), self.line);
        match step {
            Some(step) => {
                self.after(step);
                let quiet = self.quiet;
                let n = end.min(self.line.len());
                show(voice, quiet, &self.line[..n])
            }
            None => Ok(()),
        }
    }

    // What there is of a record is all.
    pub(crate) fn cut(&mut self, voice: &mut Voice) -> Result<(), Stop> {
        if self.playing && 0 < self.record.at {
            self.play(voice, true)?;
        }
        self.record.at = 0;
        Ok(())
    }

    // Another record is begun: what the one before printed is not its line.
    pub(crate) fn begun(&mut self) {
        self.said = 0;
    }

    // The record that a line said by its name is there whole.
    pub(crate) fn named(&mut self, voice: &mut Voice, length: usize) -> Result<(), Stop> {
        self.begun();
        self.record.at = length;
        self.raw = false;
        self.cut(voice)
    }

    // The next script starts from power-on, with a disc of zeros.
    pub(crate) fn start(&mut self, voice: &mut Voice) -> Result<(), Stop> {
        self.cut(voice)?;
        self.buffer.fill(0);
        self.disc.fill(0);
        self.playing = true;
        self.number = 1;
        self.state = drive::power_on();
        self.said = 0;
        Ok(())
    }

    // A byte of a record, so many times.
    pub(crate) fn add(&mut self, voice: &mut Voice, byte: u8, times: usize) -> Result<(), Stop> {
        for _ in 0..times {
            if !self.playing {
                // these belong to the bad record before them, if that one was of bytes too
                if !self.raw {
                    self.begun();
                }
                return Ok(());
            }
            self.record.put(byte);
            self.raw = true;
            self.play(voice, false)?;
        }
        Ok(())
    }
}
