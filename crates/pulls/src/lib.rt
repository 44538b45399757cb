// Pull: how the bytes of an answer or of the disc come to a lent buffer, with the house refusals.
#![tactic(auto)]

mod blocks;

ghost use Rattle.std.specs.Prelude.{◌≡◌};
ghost use Rattle.house.specs.World.{World, in_state, in_lent};
ghost use Rattle.moves.specs.Places.{AnswerSpan, ReadSpan};
ghost use Rattle.moves.specs.Replies.{went, moved};
ghost use Rattle.pulls.specs.Pulling.{answer_pulled, read_pulled, pull_of};

use disc::BytePlace;
use house::Refusal;
use moves::Moved;
use state::{AnswerAt, DiscAt, State, Transfer};

// An open answer gives its first min(out, left) bytes from the block buffer.
fn pull_answer(state: State, from: AnswerAt, out: &mut [u8], buffer: &[u8], disc: &[u8]) -> Moved
    requires { AnswerSpan from buffer.now }
    ensures { (w : World) → went result out.new (in_lent w buffer.now disc.now)
        ≡ answer_pulled from (in_state (in_lent w buffer.now disc.now) state) out.old }
{
    let end = from.at + from.left;
    let count = ground::fill(&buffer[from.at..end], out);
    let rest = AnswerAt {
        at: from.at + count,
        left: from.left - count,
    };
    let state = state::moved(state, Transfer::Answer(rest));
    Moved { count, state }
}

// An open read gives its first min(out, left) bytes from the disc.
fn pull_read(state: State, from: DiscAt, out: &mut [u8], buffer: &[u8], disc: &[u8]) -> Moved
    requires { ReadSpan state.media.disc from disc.now }
    ensures { (w : World) → went result out.new (in_lent w buffer.now disc.now)
        ≡ read_pulled from (in_state (in_lent w buffer.now disc.now) state) out.old }
{
    let count = blocks::pull_blocks(from, state.media.disc, disc, out);
    let rest = DiscAt {
        at: BytePlace(from.at.0 + count),
        left: from.left - count,
    };
    let state = state::moved(state, Transfer::Read(rest));
    Moved { count, state }
}

#[tactic(auto, unfolding(crate::specs::Pulling::pull_of), using(crate::proofs::ByTransfer::pull_refused, crate::proofs::ByTransfer::unpulled))]
pub fn pull(state: State, out: &mut [u8], buffer: &[u8], disc: &[u8]) -> Result<Moved, Refusal>
    ensures { (w : World) → moved result out.new (in_state (in_lent w buffer.now disc.now) state)
        ≡ pull_of (in_state (in_lent w buffer.now disc.now) state) out.old }
{
    house::move_house(state, buffer.len(), disc.len())?;
    match state.transfer {
        Transfer::Answer(from) => Ok(pull_answer(state, from, out, buffer, disc)),
        Transfer::Read(from) => Ok(pull_read(state, from, out, buffer, disc)),
        _ => Ok(Moved { count: 0, state }),
    }
}
