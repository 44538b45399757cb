// The bench player's loop, a turn at a time: the program only reads and writes.
#![tactic(auto)]

ghost use Rattle.std.specs.Prelude.{◌≡◌};
ghost use Rattle.ground.specs.Kit.{false, []};
ghost use Rattle.state.specs.declared.State.{State};
ghost use Rattle.text.specs.Ink.{ink};
ghost use Rattle.player.specs.Steps.{stepped};
ghost use Rattle.turns.specs.Turns.{start_of, next_of, done_of, worded_line, run_of, turned, turn_of, came_of};

use player::Progress;
use state::State;
use window::Window;

// What comes next of a run.
#[derive(Clone, Copy, PartialEq, Eq)]
pub enum Ahead {
    Read,
    Turn,
    // no bytes are left, or a read failed
    End,
    // a bad record ended it
    Stop,
}

#[derive(Clone, Copy)]
pub struct Run {
    pub ahead: Ahead,
    pub window: Window,
    // of the next record
    pub number: u64,
    pub state: State,
    // how many bytes the line has of the record that was played in this turn: none where it waited
    pub length: usize,
}

// From power-on, before anything was read.
pub fn start() -> Run
    ensures { result ≡ start_of }
{
    Run {
        ahead: Ahead::Read,
        window: window::opened(),
        number: 1,
        state: drive::power_on(),
        length: 0,
    }
}

// No run gets as far as the last number of 64 bits.
fn next_number(number: u64) -> u64
    ensures { result ≡ next_of false number }
{
    number.saturating_add(1)
}

// How many bytes a record used up: none where it is bad, or waits.
fn done(step: Option<Progress>) -> usize
    ensures { (state : State) → let s = stepped state step [] [] [] in result ≡ done_of s.bad s.used }
{
    match step {
        Some(step) if step.bad => 0,
        Some(step) => step.used,
        None => 0,
    }
}

// The words of a step on these bytes go behind its line, if they are asked for; how long the line then is.
#[tactic(auto, unfolding(crate::specs::Turns::worded_line))]
pub fn put_words(explain: bool, step: Option<Progress>, bytes: &[u8], line: &mut [u8]) -> usize
    ensures { (state : State) → ink result line.new
        ≡ worded_line explain bytes.now (stepped state step line.old [] []) }
{
    match step {
        Some(step) if explain => {
            let sense = step.state.host.sense;
            explain::put_explained(line, step.length, bytes, step.house, sense, step.count)
        }
        Some(step) => step.length,
        None => 0,
    }
}

// The run after a step with a line of that length: one that waits where no read is due is over.
fn run_of(run: Run, step: Option<Progress>, length: usize, due: bool, window: Window) -> Run
    ensures { result ≡ run_of (stepped run.state step [] [] []) length due window run.number }
{
    match step {
        Some(step) => Run {
            ahead: if step.bad { Ahead::Stop } else { Ahead::Turn },
            window,
            number: next_number(run.number),
            state: step.state,
            length,
        },
        None => Run {
            ahead: if due { Ahead::Read } else { Ahead::End },
            window,
            length,
            ..run
        },
    }
}

// One record more is played, if it can be told from the unread bytes.
pub fn turn(
    run: Run,
    explain: bool,
    room: &mut [u8],
    buffer: &mut [u8],
    disc: &mut [u8],
    line: &mut [u8],
) -> Run
    ensures { turned result room.new buffer.new disc.new line.new
        ≡ turn_of run explain room.old buffer.old disc.old line.old }
{
    let window = window::within(run.window, room);
    let bytes = &room[window.from..window.upto];
    let step = player::step(
        run.state,
        run.number,
        bytes,
        window.ended,
        buffer,
        disc,
        line,
    );
    let length = put_words(explain, step, bytes, line);
    let left = window::used(window, done(step));
    let due = window::is_due(window, step.is_none());
    let after = window::settled(left, due, room);
    run_of(run, step, length, due, after)
}

// After a read that was due; one that failed (`None`) ends the run.
pub fn came(run: Run, read: Option<usize>, room: &[u8]) -> Run
    ensures { result ≡ came_of run read room.now }
{
    Run {
        ahead: match (run.ahead, read) {
            (Ahead::Read | Ahead::Turn, Some(_)) => Ahead::Turn,
            (Ahead::Read | Ahead::Turn, None) => Ahead::End,
            (over, _) => over,
        },
        window: window::came(run.window, read, room),
        ..run
    }
}
