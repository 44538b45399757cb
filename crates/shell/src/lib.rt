// What a program shares with the shell that starts it: its arguments, its input, what it says of trouble, and its exit status.
#![tactic(auto)]

ghost use Rattle.std.specs.Prelude.{◌≡◌, ◌≤◌, IfSome};
ghost use Rattle.ground.specs.Kit.{true, false, length, cond};
ghost use Rattle.std.specs.Process.{exit_status};
ghost use Rattle.shell.specs.Arguments.{Within, option_b, with_file, with_option, with_word};
ghost use Rattle.shell.specs.Sources.{open_b};
ghost use Rattle.text.specs.Ink.{inked, put_on};
ghost use Rattle.shell.specs.Voices.{Left, OnLine, subject_text};

use std::env::{Env, FillError};
use std::fmt::Write as _;
use std::fs::File;
use std::io;
use std::io::{ErrorKind, Read, Stdin, Write};
use std::process::ExitCode;
use text::Line;

// A name of any length that the system takes has room in so many bytes.
pub const NAME_BYTES: usize = 4096;

// The exit status, a number of the system's: as hoped; the input was judged and found wanting; trouble.
pub const AS_HOPED: u8 = 0;

pub const WANTING: u8 = 1;

pub const TROUBLE: u8 = 2;

// That of a program which the signal PIPE ends, since nobody reads any more.
const UNREAD: u8 = 141;

// Linux's numbers, where the reason is the system's and no call was made: ENAMETOOLONG and EILSEQ.
const TOO_LONG: i32 = 36;

const NO_TEXT: i32 = 84;

// Room for a name, each byte of it shown by four, and what stands before and behind it.
const COMPLAINT_BYTES: usize = 16896;

// Through this a program is heard: what it says, and the status that it ends with.
#[derive(Drop)]
pub struct Voice<'a> {
    pub rt: HostRuntime,
    // what its complaints begin with
    pub program: &'a [u8],
    // nothing is heard any more
    pub silent: bool,
    pub status: u8,
}

impl<'a> Voice<'a> {
    // A program that does not say how it ended is in trouble.
    pub fn new(rt: HostRuntime, program: &'a [u8]) -> Voice<'a>
        ensures status { result.status ≡ 2 }
        ensures silence { result.silent ≡ false }
        ensures program { result.program.now ≡ program.now }
    {
        Voice {
            rt,
            program,
            silent: false,
            status: TROUBLE,
        }
    }

    // The last that a program does. Where nothing is heard any more nothing happens.
    pub fn end(&mut self, status: u8)
        ensures status { self.new.status ≡ cond self.old.silent self.old.status status }
        ensures same_silence { self.new.silent ≡ self.old.silent }
        ensures same_program { self.new.program.now ≡ self.old.program.now }
    {
        if !self.silent {
            self.status = status;
        }
    }

    // What `main` answers.
    pub fn exit_code(&self) -> ExitCode
        ensures { exit_status result ≡ self.now.status }
    {
        ExitCode::from(self.status)
    }

    // Nothing is heard of the program any more, whatever it does: no text, no complaint, no status.
    pub fn fall_silent(&mut self)
        ensures silence { self.new.silent ≡ true }
        ensures same_status { self.new.status ≡ self.old.status }
        ensures same_program { self.new.program.now ≡ self.old.program.now }
    {
        self.silent = true;
    }

    // Nobody reads any more: the program ends as by the signal PIPE, without a word.
    fn leave(&mut self)
        ensures silence { self.new.silent ≡ true }
        ensures status { self.new.status ≡ cond self.old.silent self.old.status 141 }
        ensures same_program { self.new.program.now ≡ self.old.program.now }
    {
        self.end(UNREAD);
        self.fall_silent();
    }

    // A complaint that can't go out is lost.
    fn say_of_trouble(&mut self, line: &[u8])
        ensures { Left self.old self.new self.old.status }
    {
        if self.silent {
            return;
        }
        if let Err(error) = self.rt.stderr().write_all(line)
            && error.kind() == ErrorKind::BrokenPipe
        {
            self.leave();
        }
    }

    // A program that stops for trouble says why in one line.
    pub fn trouble(&mut self, line: &[u8])
        ensures { Left self.old self.new 2 }
    {
        self.say_of_trouble(line);
        self.end(TROUBLE);
    }

    // What a complaint begins with: the program, and what it is about.
    #[tactic(auto, using(text::proofs::Putting::put_behind))]
    fn put_subject(&self, line: &mut Line, name: &[u8])
        ensures { inked line.new ≡ put_on (inked line.old) (subject_text self.now.program.now name.now) }
    {
        line.put_all(self.program);
        line.put_all(b": ");
        line.put_plain(name);
    }

    // What the system refused, in one line with the system's reason.
    pub fn complain(&mut self, name: &[u8], error: io::Error)
        ensures { Left self.old self.new self.old.status }
    {
        let mut room = [0; COMPLAINT_BYTES];
        let mut line = Line::new(&mut room);
        self.put_subject(&mut line, name);
        put_reason(&mut line, error);
        self.say_of_trouble(line.said());
    }

    // A program that stops for what the system refused.
    pub fn trouble_with(&mut self, name: &[u8], error: io::Error)
        ensures { Left self.old self.new 2 }
    {
        self.complain(name, error);
        self.end(TROUBLE);
    }

    // The same where the program has a reason of its own, with which the line ends.
    pub fn trouble_for(&mut self, name: &[u8], reason: &[u8])
        ensures { Left self.old self.new 2 }
    {
        let mut room = [0; COMPLAINT_BYTES];
        let mut line = Line::new(&mut room);
        self.put_subject(&mut line, name);
        self.say_of_trouble(line.said());
        self.trouble(reason);
    }

    // Whether all of a text went out: else the program has to stop, and why has been said.
    pub fn print(&mut self, text: &[u8]) -> bool
        ensures left { Left self.old self.new (cond result self.old.status 2) }
        ensures printed { result ≡ true → self.new.silent ≡ false }
    {
        if self.silent {
            return false;
        }
        match self.rt.stdout().write_all(text) {
            Ok(()) => return true,
            Err(error) if error.kind() == ErrorKind::BrokenPipe => self.leave(),
            Err(error) => self.trouble_with(b"standard output", error),
        }
        false
    }

    // Whether a program that takes no arguments was given none.
    pub fn is_alone(&mut self, usage: &[u8]) -> bool
        ensures left { Left self.old self.new (cond result self.old.status 2) }
        ensures alone { result ≡ true → self.new.silent ≡ self.old.silent }
    {
        let alone = !is_given(self.rt, 1);
        if !alone {
            self.trouble(usage);
        }
        alone
    }

    // The system refused to go on with the input.
    pub fn unreadable(&mut self, input: &Input, room: &[u8], error: io::Error)
        ensures { Left self.old self.new 2 }
    {
        let n = input.name.min(room.len());
        self.trouble_with(&room[..n], error);
    }
}

const REASON_BYTES: usize = 256;

// std puts the error's number behind the system's reason, in parentheses.
fn without_number(reason: &[u8]) -> &[u8]
    ensures { length result.now ≤ length reason.now }
{
    match reason.iter().rposition(|b| *b == b'(') {
        Some(at) => &reason[..at.saturating_sub(1)],
        None => reason,
    }
}

// The reason as the system gives it goes behind a subject.
#[tactic(auto, using(text::proofs::Putting::put_behind, crate::proofs::Lines::on_line))]
fn put_reason(line: &mut Line, error: io::Error)
    ensures { OnLine line.old line.new }
{
    let mut room = [0; REASON_BYTES];
    let mut words = Line::new(&mut room);
    let _ = write!(words, "{error}");
    let said = words.said();
    let numbered = error.raw_os_error().is_some();
    line.put_all(b": ");
    line.put_all(if numbered { without_number(said) } else { said });
    line.put(b'\n');
}

// Whether the program was given an argument of that number.
pub fn is_given(rt: HostRuntime, i: usize) -> bool {
    !matches!(given(rt, i, &mut [0; 1]), Err(FillError::NotPresent))
}

// Argument 0 is the program's own name. One that is given stands at the start of the room.
pub fn given(rt: HostRuntime, i: usize, room: &mut [u8]) -> Result<usize, FillError>
    ensures { Within result (length room.new) }
{
    rt.arg(i, room)
}

// What the players are asked.
#[derive(Clone, Copy, Default)]
pub struct Options {
    // an option that is not known, or a second file: said once all are read
    pub wrong: bool,
    pub explain: bool,
    pub quiet: bool,
    // which argument names the file
    pub file: Option<usize>,
}

impl Options {
    fn with_file(self, i: usize) -> Options
        ensures { result ≡ with_file self i }
    {
        Options {
            wrong: self.wrong | self.file.is_some(),
            file: Some(i),
            ..self
        }
    }

    #[tactic(auto, unfolding(crate::specs::Arguments::with_option))]
    fn with_option(self, word: &[u8]) -> Options
        ensures { result ≡ with_option self word.now }
    {
        let explain = word == b"--explain".as_slice();
        let quiet = word == b"--quiet".as_slice();
        Options {
            wrong: self.wrong | !(explain | quiet),
            explain: self.explain | explain,
            quiet: self.quiet | quiet,
            ..self
        }
    }

    #[tactic(auto, unfolding(crate::specs::Arguments::with_word))]
    fn with_word(self, i: usize, word: &[u8]) -> Options
        ensures { result ≡ with_word self i word.now }
    {
        if is_option(word) {
            self.with_option(word)
        } else {
            self.with_file(i)
        }
    }
}

// `-` alone is a file's name: standard input's.
fn is_option(word: &[u8]) -> bool
    ensures { result ≡ option_b word.now }
{
    matches!(word, [b'-', _, ..])
}

// What the arguments of a player say. Of an argument that is too long the room has the first bytes.
pub fn asked(rt: HostRuntime) -> Options {
    let mut room = [0; NAME_BYTES];
    let mut options = Options::default();
    // by number: std's iterator over them asks for an allocator, and there is no heap
    for i in 1..usize::MAX {
        let n = match given(rt, i, &mut room) {
            Ok(n) => n,
            Err(FillError::TooLong) => NAME_BYTES,
            Err(FillError::NotPresent) => break,
        };
        options = options.with_word(i, &room[..n]);
    }
    options
}

// Where bytes are read.
#[derive(Drop)]
pub enum Source {
    Standard(Stdin),
    Named(File),
}

// What is read.
#[derive(Drop)]
pub struct Input {
    pub source: Source,
    // how long its name is, at the start of the caller's room
    pub name: usize,
}

impl Read for Input {
    fn read(&mut self, room: &mut [u8]) -> io::Result<usize> {
        match &mut self.source {
            Source::Standard(stdin) => stdin.read(room),
            Source::Named(file) => file.read(room),
        }
    }
}

fn standard(rt: HostRuntime, room: &mut [u8]) -> Input
    ensures { result.name ≤ length room.new }
{
    Input {
        source: Source::Standard(rt.stdin()),
        name: ground::fill(b"standard input", room),
    }
}

// The file of that name. std takes a name that is text in UTF-8, and no other.
pub fn open_file(rt: HostRuntime, name: &[u8]) -> io::Result<File> {
    let path = str::from_utf8(name).map_err(|_| io::Error::from_raw_os_error(NO_TEXT))?;
    File::open(&rt, path)
}

// Why an argument that is too long can be no file's name.
pub fn too_long() -> io::Error {
    io::Error::from_raw_os_error(TOO_LONG)
}

fn open_named(voice: &mut Voice, name: &[u8]) -> Option<Input>
    ensures name { IfSome result (λ input. input.name ≡ length name.now) }
    ensures left { Left voice.old voice.new (cond (open_b result) voice.old.status 2) }
{
    match open_file(voice.rt, name) {
        Ok(file) => Some(Input {
            source: Source::Named(file),
            name: name.len(),
        }),
        Err(error) => {
            voice.trouble_with(name, error);
            None
        }
    }
}

// The file that an argument names, standard input for `-` and where none does; none where it could not be opened, which has been said.
pub fn open(voice: &mut Voice, file: Option<usize>, room: &mut [u8]) -> Option<Input>
    ensures name { IfSome result (λ input. input.name ≤ length room.new) }
    ensures left { Left voice.old voice.new (cond (open_b result) voice.old.status 2) }
{
    let told = match file {
        Some(i) => given(voice.rt, i, room),
        None => return Some(standard(voice.rt, room)),
    };
    match told {
        Ok(n) if &room[..n] == b"-".as_slice() => Some(standard(voice.rt, room)),
        Ok(n) => open_named(voice, &room[..n]),
        Err(_) => {
            voice.trouble_with(b"the file's name", too_long());
            None
        }
    }
}
