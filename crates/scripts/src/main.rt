// Plays scripts that are written as text (README, "Scripts as text"), and compares the lines of their records with those that the text expects.
#![tactic(auto)]

mod bytes_of;
mod chars;
mod expected;
mod faults;
mod names;
mod records;
mod words;

use chars::{Act, Scan};
use faults::Fault;
use records::{Script, show};
use shell::{Input, Options, Voice};
use std::io;
use std::io::Read;
use std::process::ExitCode;
use text::Line;

// One word holds the bytes of a pull.
const WORD_BYTES: usize = 1100;

// More than any printed line has, so that a longer one is never taken for one.
const EXPECTED_BYTES: usize = 1300;

// The first line that differed, and what was expected instead, each byte of that shown by up to four.
const FIRST_BYTES: usize = 6800;

const READ_BYTES: usize = 65536;

// Why a run stops before its end.
#[derive(Clone, Copy)]
pub(crate) enum Stop {
    // something is wrong with the text
    Wrong(Fault),
    // the text can't be read
    Unreadable(io::Error),
    // what it printed was lost
    Lost,
}

impl From<Fault> for Stop {
    fn from(fault: Fault) -> Stop {
        Stop::Wrong(fault)
    }
}

impl From<io::Error> for Stop {
    fn from(error: io::Error) -> Stop {
        Stop::Unreadable(error)
    }
}

#[derive(Drop)]
struct Run<'a> {
    scan: Scan<'a>,
    script: Script<'a>,
    // the first difference; in the script it could not be lent while its line is read
    first: Line<'a>,
}

impl Run<'_> {
    // What a byte of the text has the script do.
    fn act(&mut self, voice: &mut Voice, act: Act) -> Result<(), Stop> {
        match act {
            Act::Begin => self.script.begun(),
            Act::Add(byte, times) => self.script.add(voice, byte, times)?,
            Act::Play(length) => self.script.named(voice, length)?,
            Act::Cut => self.script.cut(voice)?,
            Act::Start => self.script.start(voice)?,
            Act::Show(upto) => {
                let quiet = self.script.quiet;
                show(voice, quiet, self.scan.title(upto))?;
            }
            Act::Judge(place) => self
                .script
                .judge(&mut self.first, place, self.scan.expected.said()),
        }
        Ok(())
    }

    fn step(&mut self, voice: &mut Voice, c: u8) -> Result<(), Stop> {
        match self.scan.take(c, &mut self.script.record)? {
            Some(act) => self.act(voice, act),
            None => Ok(()),
        }
    }

    // Reads until the text ends or something stops the run.
    fn play(&mut self, voice: &mut Voice, input: &mut Input) -> Result<(), Stop> {
        let mut room = [0; READ_BYTES];
        // a loop has to end, and nothing says that the input does: no run uses these turns up
        for _ in 0..u64::MAX {
            let n = input.read(&mut room)?;
            if n == 0 {
                break;
            }
            self.take_part(voice, &room[..n])?;
        }
        self.end(voice)
    }

    fn take_part(&mut self, voice: &mut Voice, part: &[u8]) -> Result<(), Stop> {
        for c in part {
            self.step(voice, *c)?;
        }
        Ok(())
    }

    // A text ends as a line does. Its last record is cut short, if it is begun, and the sum is drawn.
    fn end(&mut self, voice: &mut Voice) -> Result<(), Stop> {
        if 0 < self.scan.column {
            self.step(voice, b'\n')?;
        }
        self.script.cut(voice)?;
        self.script.sum_up(voice, self.first.said())
    }
}

fn play(voice: &mut Voice, input: &mut Input, name: &[u8], options: Options) {
    let mut word = [0; WORD_BYTES];
    let mut expected = [0; EXPECTED_BYTES];
    let mut record = [0; record::RECORD_BYTES];
    let mut buffer = [0; disc::BUFFER_BYTES];
    let mut disc = [0; player::DISC_BYTES];
    let mut line = [0; explain::LINE_BYTES];
    let mut first = [0; FIRST_BYTES];
    let mut run = Run {
        scan: Scan::new(&mut word, &mut expected),
        script: Script::new(options, &mut record, &mut buffer, &mut disc, &mut line),
        first: Line::new(&mut first),
    };
    match run.play(voice, input) {
        Ok(()) => voice.end(run.script.status()),
        Err(Stop::Wrong(fault)) => fault.report(voice, &run.scan),
        Err(Stop::Unreadable(error)) => voice.unreadable(input, name, error),
        Err(Stop::Lost) => {}
    }
}

fn start(voice: &mut Voice) {
    let options = shell::asked(voice.rt);
    if options.wrong {
        voice.trouble(b"scripts: usage: scripts [--explain] [--quiet] [FILE]\n");
        return;
    }
    let mut name = [0; shell::NAME_BYTES];
    if let Some(mut input) = shell::open(voice, options.file, &mut name) {
        play(voice, &mut input, &name, options);
    }
}

fn main(rt: HostRuntime) -> ExitCode {
    let mut voice = Voice::new(rt, b"scripts");
    start(&mut voice);
    voice.exit_code()
}
