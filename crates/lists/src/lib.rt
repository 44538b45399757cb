// The parameter list of FORMAT UNIT, when it is whole: it is judged, and the disc is filled as it asks.
#![tactic(auto)]

ghost use Rattle.std.specs.Prelude.{◌≡◌, ◌+◌, ◌<◌, ◌^◌, is_err};
ghost use Rattle.ground.specs.Kit.{replicate, sets};
ghost use Rattle.lists.specs.Lists.{other_format_b, bad_list_b, meant_of, filler, judged, list_judged};

use disc::{BlockAddress, BytePlace, Format};
use ground::byte;

// What a formatted byte is.
const FILLER: u8 = 0xf6;

// Some of a disc's blocks, one after the other.
#[derive(Clone, Copy)]
pub struct Blocks {
    pub first: BlockAddress,
    pub count: u32,
}

// A list is refused.
#[derive(Clone, Copy, PartialEq, Eq)]
pub struct BadList;

// The descriptor is of other blocks or of another block length.
fn other_format(format: Format, list: &[u8]) -> bool
    ensures { result ≡ other_format_b format list.now }
{
    let blocks = u32::from_be_bytes([byte(list, 4), byte(list, 5), byte(list, 6), byte(list, 7)]);
    let size = u32::from_be_bytes([0, byte(list, 9), byte(list, 10), byte(list, 11)]);
    blocks != format.blocks || size != u32::from(format.size)
}

// The defect list length isn't 8, Immediate is set, or the descriptor is of another format.
#[tactic(auto, unfolding(crate::specs::Lists::bad_list_b))]
fn bad_list(format: Format, list: &[u8]) -> bool
    ensures { result ≡ bad_list_b format list.now }
{
    let defects = u16::from_be_bytes([byte(list, 2), byte(list, 3)]);
    defects != 8 || byte(list, 1) / 2 % 2 == 1 || other_format(format, list)
}

// The blocks that a list means: with Single Track those of the track and the side, else all.
#[tactic(auto, unfolding(crate::specs::Lists::meant_of))]
fn meant(format: Format, track: u8, list: &[u8]) -> Blocks
    ensures { result ≡ meant_of format track list.now }
{
    let flags = byte(list, 1);
    if flags / 16 % 2 != 1 {
        return Blocks {
            first: BlockAddress(0),
            count: format.blocks,
        };
    }
    let sectors = u32::from(format.sectors);
    let tracks = u32::from(track) * 2 + u32::from(flags % 2);
    Blocks {
        first: BlockAddress(tracks * sectors),
        count: sectors,
    }
}

// Fills so many bytes of the disc from a place on; past its end there are none.
fn fill(disc: &mut [u8], from: BytePlace, count: usize)
    requires { from.0 + count < 2 ^ 64 }
    ensures { disc.new ≡ sets disc.old from.0 (replicate count filler) }
{
    let end = disc.len().min(from.0 + count);
    let first = end.min(from.0);
    disc[first..end].fill(FILLER);
}

// A whole list, for the track that its command named: if it isn't refused, its blocks are filled.
#[tactic(auto, unfolding(crate::specs::Lists::list_judged, crate::specs::Lists::formatted, disc::specs::Formats::place_of, disc::specs::Formats::run_bytes, disc::specs::Formats::block_bytes))]
pub fn obey(number: u8, track: u8, list: &[u8], disc: &mut [u8]) -> Result<(), BadList>
    ensures { judged (is_err result) disc.new ≡ list_judged number track list.now disc.old }
{
    let format = disc::format_of(number);
    if bad_list(format, list) {
        return Err(BadList);
    }
    let blocks = meant(format, track, list);
    // not by `place_of` and `run_bytes`, whose promises bound no product
    let size = usize::from(format.size);
    let from = BytePlace(blocks.first.0 as usize * size);
    fill(disc, from, blocks.count as usize * size);
    Ok(())
}
