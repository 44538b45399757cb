// Feeding: bytes of a piece go to the block buffer, and each block that they complete goes to the disc.
ghost use Rattle.std.specs.Prelude.{◌≡◌, ◌+◌, ◌≤◌};
ghost use Rattle.ground.specs.Kit.{min, length, take, paste};
ghost use Rattle.disc.specs.Formats.{block_bytes};
ghost use Rattle.moves.specs.Places.{Place, WriteSpan, rest_of};
ghost use Rattle.state.specs.States.{onward};
ghost use Rattle.feeds.specs.Feeding.{writing, feed_bytes};

use disc::{BUFFER_BYTES, BytePlace};
use state::DiscAt;

// Copies a complete block from the block buffer to the disc, where its first byte stands: at a stroke, its length taken once.
#[tactic(auto, using(disc::proofs::Discs::block_fits))]
fn store_block(buffer: &[u8; BUFFER_BYTES], first: BytePlace, number: u8, disc: &mut [u8])
    requires { first.0 + block_bytes number ≤ length disc.old }
    ensures { disc.new ≡ paste disc.old first.0 buffer.now (block_bytes number) }
{
    let size = disc::block_bytes(number);
    let at = first.0;
    let end = at + size;
    ground::fill(&buffer[..size], &mut disc[at..end]);
}

// Takes the first min(piece, rest of the block) bytes; a block that they complete goes to the disc. Both stay parameters of their own, here and
// above, for the entry lends them apart and its promise names each.
fn feed_share(
    piece: &[u8],
    place: BytePlace,
    number: u8,
    buffer: &mut [u8; BUFFER_BYTES],
    disc: &mut [u8],
) -> usize
    requires { Place number place disc.old }
    ensures { writing (onward place result) buffer.new disc.new
        ≡ feed_bytes (block_bytes number) (writing place buffer.old disc.old)
        (take (min (length piece.now) (rest_of number place)) piece.now) }
{
    let block = disc::block_bytes(number);
    let at = place.0;
    let within = at % block;
    let count = ground::fill(piece, &mut buffer[within..block]);
    if within + count == block {
        store_block(buffer, BytePlace(at - within), number, disc);
    }
    count
}

// Takes the first min(piece, left) bytes, block by block.
pub(crate) fn feed_blocks(
    piece: &[u8],
    from: DiscAt,
    number: u8,
    buffer: &mut [u8; BUFFER_BYTES],
    disc: &mut [u8],
) -> usize
    requires { WriteSpan number from disc.old }
    ensures { writing (onward from.at result) buffer.new disc.new
        ≡ feed_bytes (block_bytes number) (writing from.at buffer.old disc.old)
        (take (min (length piece.now) from.left) piece.now) }
{
    let at = from.at.0;
    let wanted = piece.len().min(from.left);
    let mut done = 0;
    // no iterator, as the paper has the tail of the piece handed on from its middle
    while done < wanted {
        done += feed_share(&piece[done..], BytePlace(at + done), number, buffer, disc);
    }
    done
}
