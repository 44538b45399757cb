// Feed: how the bytes of a piece come to the disc, with the house refusals.
#![tactic(auto)]

mod blocks;

ghost use Rattle.std.specs.Prelude.{◌≡◌, ◌≤◌};
ghost use Rattle.house.specs.World.{World, in_state, in_lent};
ghost use Rattle.moves.specs.Places.{WriteSpan};
ghost use Rattle.moves.specs.Replies.{went, moved};
ghost use Rattle.state.specs.States.{list_bytes};
ghost use Rattle.feeds.specs.Feeding.{write_fed, list_goes, list_fed, feed_of};

use disc::{BUFFER_BYTES, BytePlace};
use house::Refusal;
use moves::Moved;
use state::{DiscAt, ListAt, State, Transfer};

// An open write takes the first min(piece, left) bytes.
fn feed_write(
    state: State,
    from: DiscAt,
    piece: &[u8],
    buffer: &mut [u8; BUFFER_BYTES],
    disc: &mut [u8],
) -> Moved
    requires { WriteSpan state.media.disc from disc.old }
    ensures { (w : World) → went result piece.now (in_lent w buffer.new disc.new)
        ≡ write_fed from (in_state (in_lent w buffer.old disc.old) state) piece.now }
{
    let count = blocks::feed_blocks(piece, from, state.media.disc, buffer, disc);
    // built here, as in pulls: a public method would have to ask that the sum fits
    let rest = DiscAt {
        at: BytePlace(from.at.0 + count),
        left: from.left - count,
    };
    let state = state::moved(state, Transfer::Write(rest));
    Moved { count, state }
}

// So many bytes more of a parameter list are in the block buffer; with the last of them it is judged.
fn list_goes(state: State, from: ListAt, count: usize, buffer: &[u8], disc: &mut [u8]) -> State
    requires { count ≤ from.left }
    ensures { (w : World) → in_state (in_lent w buffer.now disc.new) result
        ≡ list_goes from count (in_state (in_lent w buffer.now disc.old) state) }
{
    if count != from.left {
        let rest = ListAt {
            left: from.left - count,
            ..from
        };
        return state::moved(state, Transfer::ParameterList(rest));
    }
    match lists::obey(state.media.disc, from.track, buffer, disc) {
        Ok(()) => state::moved(state, Transfer::Closed),
        Err(_) => state::obeyed(state, state::BAD_LIST, state.motor, Transfer::Closed),
    }
}

// An open parameter list takes the first min(piece, left) bytes, to their places at the start of the block buffer.
fn feed_list(
    state: State,
    from: ListAt,
    piece: &[u8],
    buffer: &mut [u8; BUFFER_BYTES],
    disc: &mut [u8],
) -> Moved
    requires { from.left ≤ list_bytes }
    ensures { (w : World) → went result piece.now (in_lent w buffer.new disc.new)
        ≡ list_fed from (in_state (in_lent w buffer.old disc.old) state) piece.now }
{
    let at = state::LIST_BYTES - from.left;
    let taken = ground::fill(piece, &mut buffer[at..state::LIST_BYTES]);
    Moved {
        count: taken,
        state: list_goes(state, from, taken, buffer, disc),
    }
}

#[tactic(auto, unfolding(crate::specs::Feeding::feed_of), using(crate::proofs::ByTransfer::feed_refused, crate::proofs::ByTransfer::unfed))]
pub fn feed(
    state: State,
    piece: &[u8],
    buffer: &mut [u8],
    disc: &mut [u8],
) -> Result<Moved, Refusal>
    ensures { (w : World) → moved result piece.now (in_state (in_lent w buffer.new disc.new) state)
        ≡ feed_of (in_state (in_lent w buffer.old disc.old) state) piece.now }
{
    house::move_house(state, buffer.len(), disc.len())?;
    // past the house tests it is an array
    let block = buffer
        .as_mut_array::<BUFFER_BYTES>()
        .ok_or(Refusal::BufferLength)?;
    match state.transfer {
        Transfer::Write(from) => Ok(feed_write(state, from, piece, block, disc)),
        Transfer::ParameterList(from) => Ok(feed_list(state, from, piece, block, disc)),
        _ => Ok(Moved { count: 0, state }),
    }
}
