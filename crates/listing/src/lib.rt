// Two images of a disc compared block by block, a part of each at a time.
#![tactic(auto)]

ghost use Rattle.std.specs.Prelude.{◌≡◌, ◌+◌, ◌<◌, ◌≤◌, ◌^◌, ◌-◌};
ghost use Rattle.std.specs.List.{zip, sum_by, position};
ghost use Rattle.ground.specs.Kit.{min, length, bool_byte};
ghost use Rattle.disc.specs.Formats.{format_of, buffer_bytes, run_bytes};
ghost use Rattle.text.specs.Ink.{inked, put_on};
ghost use Rattle.listing.specs.Differing.{apart_b, difference_of, differing_from};
ghost use Rattle.listing.specs.Listing.{number_then, line_of, total_line, disc_of, refusal_of};
ghost use Rattle.listing.specs.Turns.{start_of, due_of, blocks_at_once, listed, with_block, listed_of, turned, turn_of};

use disc::BlockAddress;
use text::Line;

// The line of a block and the last line have room in so many.
pub const LINE_BYTES: usize = 90;

// Which byte of a block.
#[derive(Clone, Copy)]
pub struct PlaceInBlock(pub usize);

// What is told of a block.
#[derive(Clone, Copy)]
pub struct Difference {
    pub block: BlockAddress,
    // how many bytes differ
    pub count: usize,
    // the first of them
    pub first: PlaceInBlock,
}

#[derive(Clone, Copy)]
pub struct Comparison {
    // the next block
    pub block: BlockAddress,
    // how many differ of those before it
    pub total: usize,
    // that was the last part
    pub over: bool,
}

// The bytes of a block in both images.
#[derive(Clone, Copy)]
struct Pair<'a> {
    first: &'a [u8],
    second: &'a [u8],
    ghost alike: { length first.now ≡ length second.now },
    ghost few: { length first.now ≤ buffer_bytes },
}

impl Pair<'_> {
    // How many bytes differ: counted in 16 bits, so that many are compared at once.
    fn differing_bytes(&self) -> usize
        ensures { result ≡ sum_by (λ p. bool_byte (apart_b p)) (zip self.now.first.now self.now.second.now) }
    {
        let count: u16 = self
            .first
            .iter()
            .zip(self.second)
            .map(|(a, b)| u16::from(a != b))
            .sum();
        count as usize
    }

    // The place of the first byte that differs.
    fn first_differing(&self) -> Option<usize>
        ensures { result ≡ position apart_b (zip self.now.first.now self.now.second.now) }
    {
        self.first.iter().zip(self.second).position(|(a, b)| a != b)
    }

    // What is told of a block, by its bytes in both images; where none differs, the first place is behind the block.
    fn compared(&self, block: BlockAddress) -> Difference
        ensures { result ≡ difference_of block self.now.first.now self.now.second.now }
    {
        let count = self.differing_bytes();
        // looked for where there is one: of equal blocks it would cost another reading
        let place = if 0 < count {
            self.first_differing()
        } else {
            None
        };
        let first = PlaceInBlock(place.unwrap_or(self.first.len()));
        Difference {
            block,
            count,
            first,
        }
    }
}

// A number in decimal, and the byte that stands behind it.
#[tactic(auto, using(text::proofs::Putting::put_append))]
fn put_number(line: &mut Line, n: usize, mark: u8)
    ensures { inked line.new ≡ put_on (inked line.old) (number_then n mark) }
{
    line.put_decimal(n as u64);
    line.put(mark);
}

// The line of a block that differs.
#[tactic(auto, unfolding(crate::specs::Listing::line_of), using(text::proofs::Putting::put_append))]
fn put_difference(line: &mut Line, difference: Difference)
    ensures { inked line.new ≡ put_on (inked line.old) (line_of difference) }
{
    put_number(line, difference.block.0 as usize, b' ');
    put_number(line, difference.count, b' ');
    put_number(line, difference.first.0, b'\n');
}

// How many differ with one block more, and its line.
fn with_block(count: usize, difference: Difference, line: &mut Line) -> usize
    requires { count < 2880 }
    ensures { listed result (inked line.new) ≡ with_block (listed count (inked line.old)) difference }
{
    if difference.count == 0 {
        return count;
    }
    put_difference(line, difference);
    count + 1
}

// How many of n blocks differ, and their lines.
fn put_blocks(
    number: u8,
    from: BlockAddress,
    n: u32,
    first: &[u8],
    second: &[u8],
    line: &mut Line,
) -> usize
    requires n_bound { n ≤ (format_of number).blocks - from.0 }
    requires n_bound_2 { run_bytes number n ≤ min (length first.now) (length second.now) }
    ensures { listed result (inked line.new) ≡ listed_of (differing_from number from n first.now second.now) (inked line.old) }
{
    let size = disc::block_bytes(number);
    let mut count = 0;
    for k in 0..n {
        let at = disc::run_bytes(number, k);
        let upto = at + size;
        let pair = Pair {
            first: &first[at..upto],
            second: &second[at..upto],
        };
        let difference = pair.compared(BlockAddress(from.0 + k));
        count = with_block(count, difference, line);
    }
    count
}

// How many blocks are compared at once, from one on: those that both parts hold whole, and for whose lines there is room.
fn blocks_at_once(number: u8, from: BlockAddress, first: usize, second: usize, text: usize) -> u32
    ensures { result ≡ blocks_at_once number from first second text }
{
    let format = disc::format_of(number);
    let left = format.blocks.saturating_sub(from.0) as usize;
    let there = first
        .min(second)
        .checked_div(format.size as usize)
        .unwrap_or(0);
    let lines = text / LINE_BYTES;
    left.min(there.min(lines)) as u32
}

// The last line.
fn put_total(line: &mut Line, total: usize)
    ensures { inked line.new ≡ put_on (inked line.old) (total_line total) }
{
    line.put_all(b"total ");
    put_number(line, total, b'\n');
}

// Before the first block.
pub fn start(number: u8) -> Comparison
    ensures { result ≡ start_of number }
{
    let blocks = disc::format_of(number).blocks;
    Comparison {
        block: BlockAddress(0),
        total: 0,
        over: blocks == 0,
    }
}

// How many bytes of each image are due from a block on, where there is room for so many at the most.
#[tactic(auto, unfolding(crate::specs::Turns::due_of))]
pub fn due(number: u8, from: BlockAddress, most: usize) -> usize
    ensures { result ≡ due_of number from most }
{
    let size = disc::disc_bytes(number);
    let place = disc::place_of(number, from);
    most.min(size.saturating_sub(place.0))
}

// The lines of two parts that start with the next block go on in the line, and behind the last block the last line.
pub fn turn(number: u8, run: Comparison, first: &[u8], second: &[u8], line: &mut Line) -> Comparison
    ensures { turned result (inked line.new) ≡ turn_of number run first.now second.now (inked line.old) }
{
    let room = line.bytes.len().saturating_sub(line.at);
    let n = blocks_at_once(number, run.block, first.len(), second.len(), room);
    let count = put_blocks(number, run.block, n, first, second, line);
    let next = run.block.0 + n;
    let over = disc::format_of(number).blocks <= next;
    let total = run.total.saturating_add(count);
    if over {
        put_total(line, total);
    }
    Comparison {
        block: BlockAddress(next),
        total,
        over,
    }
}

// The disc that a text names.
#[tactic(auto, unfolding(crate::specs::Listing::disc_of))]
pub fn disc_of(said: &[u8]) -> Option<u8>
    ensures { result ≡ disc_of said.now }
{
    match text::number(said)? {
        n @ 1..=4 => Some(n as u8),
        _ => None,
    }
}

// What is printed instead of a listing, by the disc and the lengths of the two files: nothing where they can be compared.
#[tactic(auto, unfolding(crate::specs::Listing::refusal_of, text::specs::Ink::put_all))]
pub fn put_refusal(number: Option<u8>, first: usize, second: usize, line: &mut Line)
    ensures { inked line.new ≡ put_on (inked line.old) (refusal_of number first second) }
{
    match number {
        Some(number @ 1..=4) => {
            let size = disc::disc_bytes(number);
            if first != size {
                line.put_all(b"size 1\n");
            } else if second != size {
                line.put_all(b"size 2\n");
            }
        }
        _ => line.put_all(b"disc\n"),
    }
}
