// The bench player, a record at a time: what is played, and the line that it prints.
#![tactic(auto)]

mod lines;
mod playing;

ghost use Rattle.std.specs.Prelude.{◌≡◌};
ghost use Rattle.house.specs.World.{world};
ghost use Rattle.player.specs.Steps.{stepped, step_of};

use state::State;

// What a record came to that was told.
#[derive(Clone, Copy)]
pub struct Progress {
    // a bad record: the run stops; its length and its line are told, too (specs/Steps)
    pub bad: bool,
    // how many bytes the record says it has: of a bad one it may be more than there are
    pub used: usize,
    // how many bytes its line has, in the buffer that is lent for it and that `OneStep` speaks of
    pub length: usize,
    // the paper's house number, and how many bytes a feed took or a pull gave
    pub house: u8,
    pub count: usize,
    pub state: State,
}

// What a record came to that was played, with its house number as it is printed; the first `shown` bytes of the buffer for pulls are to be printed.
#[derive(Clone, Copy)]
pub(crate) struct Outcome {
    pub(crate) house: u8,
    pub(crate) count: usize,
    pub(crate) shown: usize,
    pub(crate) state: State,
}

// The bench's disc is disc 4.
pub const DISC_BYTES: usize = 32768;

// Long enough for every line: three numbers of 20 digits at the most, a triple, and 512 bytes.
pub const LINE_BYTES: usize = 1100;

// The record at the front of the script is played, if it can be told: `ended` says that no bytes come behind these. It waits (`None`) where bytes
// are missing, or none are left.
pub fn step(
    state: State,
    number: u64,
    script: &[u8],
    ended: bool,
    buffer: &mut [u8],
    disc: &mut [u8],
    line: &mut [u8],
) -> Option<Progress>
    ensures { stepped state result line.new buffer.new disc.new
        ≡ step_of (world state buffer.old disc.old) number script.now ended line.old }
{
    if !(record::enough(script) | (ended & (script.len() != 0))) {
        return None;
    }
    let mut out = [0u8; record::PIECE_BYTES];
    let played = playing::play(state, script, buffer, disc, &mut out);
    let length = lines::lined(line, &out, number, played);
    let outcome = played.unwrap_or(Outcome {
        house: 0,
        count: 0,
        shown: 0,
        state,
    });
    Some(Progress {
        bad: played.is_none(),
        used: record::length_field(script),
        length,
        house: outcome.house,
        count: outcome.count,
        state: outcome.state,
    })
}
