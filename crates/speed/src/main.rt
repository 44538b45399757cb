// Feeds or pulls disc 3, or has std copy as many bytes, in so many calls of so many bytes: what bin/measure counts and times.
#![tactic(auto)]

ghost use Rattle.std.specs.Prelude.{◌+◌, ◌≤◌};

use drive::Moved;
use shell::Voice;
use state::{State, Transfer};
use std::process::ExitCode;
use text::Line;

const TEST_UNIT_READY: u8 = 0x00;

const READ: u8 = 0x28;

const WRITE: u8 = 0x2a;

// Disc 3.
const DISC_BYTES: usize = 1474560;

type Disc = [u8; DISC_BYTES];

const BLOCKS: u16 = 2880;

type Buffer = [u8; disc::BUFFER_BYTES];

// The longest piece.
const PIECE_BYTES: usize = 4096;

type Piece = [u8; PIECE_BYTES];

// Room for a word, and for the longest number.
const WORD_BYTES: usize = 20;

const LINE_BYTES: usize = 27;

#[derive(Clone, Copy)]
enum Work {
    Feed,
    Pull,
    Copy,
}

// What the arguments ask for: so many calls, each of so many bytes.
#[derive(Clone, Copy)]
struct Job {
    work: Work,
    length: usize,
    count: u64,
}

// A packet with a length in bytes 7 and 8.
fn command(code: u8, blocks: u16, state: State, buffer: &mut [u8], disc: &[u8]) -> State {
    let [high, low] = blocks.to_be_bytes();
    let packet = [code, 0, 0, 0, 0, 0, 0, high, low, 0, 0, 0];
    drive::command(state, &packet, buffer, disc).map_or(state, |obeyed| obeyed.state)
}

// The disc is in, and both attentions have been reported.
fn ready(buffer: &mut [u8], disc: &[u8]) -> State {
    let on = drive::power_on();
    let inserted = drive::insert(on, 3, false, disc).unwrap_or(on);
    let told = command(TEST_UNIT_READY, 0, inserted, buffer, disc);
    command(TEST_UNIT_READY, 0, told, buffer, disc)
}

// A read or a write of all blocks, where none is open.
fn opened(code: u8, state: State, buffer: &mut [u8], disc: &[u8]) -> State {
    match state.transfer {
        Transfer::Closed => command(code, BLOCKS, state, buffer, disc),
        _ => state,
    }
}

// A feed, else a pull, told apart at each call as any caller would; one that is refused moves nothing.
fn call(work: Work, state: State, piece: &mut [u8], buffer: &mut [u8], disc: &mut [u8]) -> Moved {
    match work {
        Work::Feed => {
            let state = opened(WRITE, state, buffer, disc);
            drive::feed(state, piece, buffer, disc).unwrap_or(Moved { count: 0, state })
        }
        _ => {
            let state = opened(READ, state, buffer, disc);
            drive::pull(state, piece, buffer, disc).unwrap_or(Moved { count: 0, state })
        }
    }
}

// How many bytes so many calls have moved.
fn calls(work: Work, count: u64, piece: &mut [u8], buffer: &mut [u8], disc: &mut [u8]) -> u64 {
    let mut state = ready(buffer, disc);
    let mut total = 0u64;
    for _ in 0..count {
        let moved = call(work, state, piece, buffer, disc);
        state = moved.state;
        total = total.wrapping_add(moved.count as u64);
    }
    total
}

// Where the next piece goes: behind the last one, or to the start where it has no room there.
fn place_after(at: usize, piece: usize, disc: usize) -> usize
    requires { piece ≤ disc }
    ensures { result + piece ≤ disc }
{
    if disc - piece < at { 0 } else { at }
}

// The same by std's copy, from the piece to the disc.
fn copies(count: u64, piece: &[u8], disc: &mut [u8]) -> u64 {
    let most = piece.len().min(disc.len());
    let mut at = 0;
    let mut total = 0u64;
    for _ in 0..count {
        let place = place_after(at, most, disc.len());
        at = place + most;
        disc[place..at].copy_from_slice(&piece[..most]);
        total = total.wrapping_add(most as u64);
    }
    total
}

fn work_of(word: &[u8]) -> Option<Work> {
    match word {
        b"feed" => Some(Work::Feed),
        b"pull" => Some(Work::Pull),
        b"copy" => Some(Work::Copy),
        _ => None,
    }
}

// The number that an argument says. No run makes as many calls as the largest of 64 bits, which counts as none.
fn number_asked(rt: HostRuntime, i: usize) -> Option<u64> {
    let mut room = [0; WORD_BYTES];
    let n = shell::given(rt, i, &mut room).ok()?;
    text::number(&room[..n]).filter(|number| *number < u64::MAX)
}

fn asked(rt: HostRuntime) -> Option<Job> {
    let mut room = [0; WORD_BYTES];
    let n = shell::given(rt, 1, &mut room).ok()?;
    let work = work_of(&room[..n])?;
    let length = number_asked(rt, 2)?;
    let count = number_asked(rt, 3)?;
    if ((PIECE_BYTES as u64) < length) | shell::is_given(rt, 4) {
        return None;
    }
    Some(Job {
        work,
        length: length as usize,
        count,
    })
}

// The bytes moved, and the first byte of the piece and of the disc, so that no move can be left out.
fn say(voice: &mut Voice, total: u64, piece: &[u8], disc: &[u8]) {
    let mut room = [0; LINE_BYTES];
    let mut line = Line::new(&mut room);
    line.put_decimal(total);
    for bytes in [piece, disc] {
        line.put(b' ');
        line.put_hex(ground::byte(bytes, 0));
    }
    line.put(b'\n');
    if voice.print(line.said()) {
        voice.end(shell::AS_HOPED);
    }
}

// The pieces begin with the first argument, so that no compiler knows what is moved.
fn run(voice: &mut Voice, job: Job, room: &mut [u8], buffer: &mut [u8], disc: &mut [u8]) {
    let _ = shell::given(voice.rt, 1, room);
    let n = job.length.min(room.len());
    let piece = &mut room[..n];
    let total = match job.work {
        Work::Copy => copies(job.count, piece, disc),
        work => calls(work, job.count, piece, buffer, disc),
    };
    say(voice, total, piece, disc);
}

// The same of arrays: a proof that follows lengths, where it sees an array of 1,474,560 bytes made, runs out of the checker's stack.
fn start(voice: &mut Voice, job: Job, room: &mut Piece, buffer: &mut Buffer, disc: &mut Disc) {
    run(voice, job, room, buffer, disc);
}

fn run_asked(voice: &mut Voice) {
    match asked(voice.rt) {
        Some(job) => {
            let mut room = [0; PIECE_BYTES];
            let mut buffer = [0; disc::BUFFER_BYTES];
            let mut disc = [0; DISC_BYTES];
            start(voice, job, &mut room, &mut buffer, &mut disc);
        }
        None => voice.trouble(b"speed: usage: speed feed|pull|copy PIECE CALLS\n"),
    }
}

fn main(rt: HostRuntime) -> ExitCode {
    let mut voice = Voice::new(rt, b"speed");
    run_asked(&mut voice);
    voice.exit_code()
}
