// Pulling: bytes of the disc go to the start of a lent buffer, block by block.
ghost use Rattle.std.specs.Prelude.{◌≡◌};
ghost use Rattle.ground.specs.Kit.{min, length, drop};
ghost use Rattle.ground.specs.Filling.{filled, fill_of};
ghost use Rattle.moves.specs.Places.{Place, ReadSpan, rest_of};
ghost use Rattle.pulls.specs.Pulling.{served_of};

use disc::BytePlace;
use state::DiscAt;

// Fills the first min(rest of the block, out) bytes of `out`.
fn pull_share(place: BytePlace, number: u8, disc: &[u8], out: &mut [u8]) -> usize
    requires { Place number place disc.now }
    ensures { filled result out.new
        ≡ fill_of (min (rest_of number place) (length out.old)) (drop place.0 disc.now) out.old }
{
    let block = disc::block_bytes(number);
    let at = place.0;
    let first = at - at % block;
    let end = first + block;
    ground::fill(&disc[at..end], out)
}

// Fills the first min(out, left) bytes of `out` from the disc, block by block.
pub(crate) fn pull_blocks(from: DiscAt, number: u8, disc: &[u8], out: &mut [u8]) -> usize
    requires { ReadSpan number from disc.now }
    ensures { filled result out.new ≡ served_of (drop from.at.0 disc.now) from.left out.old }
{
    let at = from.at.0;
    let wanted = out.len().min(from.left);
    let mut done = 0;
    // no iterator, as the paper has each share written to a lent part that starts in the middle
    while done < wanted {
        done += pull_share(BytePlace(at + done), number, disc, &mut out[done..wanted]);
    }
    done
}
