// Discs 1 to 3 in use, from power-on: their answers, and their last two blocks.
use crate::calls::Bench;
use crate::steps::{
    MODE_SENSE, READ, READ_CAPACITY, READ_FORMAT_CAPACITIES, TEST_UNIT_READY, WRITE,
};
use crate::table::Disc;
use crate::{say, steps};
use shell::Voice;

fn answers(voice: &mut Voice, bench: &mut Bench, number: u8) {
    bench.play(voice, steps::insert(number));
    bench.play(voice, steps::command(TEST_UNIT_READY, 0, 0, 0));
    bench.play(voice, steps::command(TEST_UNIT_READY, 0, 0, 0));
    bench.play(voice, steps::command(READ_CAPACITY, 0, 0, 0));
    bench.play(voice, steps::pull(12));
    bench.play(voice, steps::command(READ_FORMAT_CAPACITIES, 0, 0, 0xff));
    bench.play(voice, steps::command(MODE_SENSE, 0x05, 0, 0xff));
}

// `block` is the first of the two, and a piece is 24 bytes shorter than a block.
fn last_two(voice: &mut Voice, bench: &mut Bench, block: u16, piece: usize) {
    bench.play(voice, steps::command(WRITE, 0, block, 2));
    bench.play(voice, steps::feed(0xa1, piece));
    bench.play(voice, steps::feed(0xb2, piece));
    bench.play(voice, steps::feed(0xc3, 100));
    bench.play(voice, steps::command(READ, 0, block, 2));
    bench.play(voice, steps::pull(piece));
    bench.play(voice, steps::pull(piece));
    bench.play(voice, steps::pull(100));
}

// The last block, and two places where there are not as many blocks.
fn ends(voice: &mut Voice, bench: &mut Bench, last: u16) {
    bench.play(voice, steps::command(READ, 0, last, 1));
    bench.play(voice, steps::command(WRITE, 0, last, 2));
    bench.play(voice, steps::command(READ, 0, last.saturating_add(1), 0));
}

// A disc of zeros.
#[inline(never)]
pub(crate) fn in_use(voice: &mut Voice, disc: Disc) {
    let mut bench = Bench::new(drive::power_on(), disc.bytes, 0);
    say::title(voice, disc.number);
    say::text(voice, b", blocks of");
    say::count(voice, usize::from(disc.size));
    say::text(voice, b"\n");
    answers(voice, &mut bench, disc.number);
    last_two(
        voice,
        &mut bench,
        disc.blocks.saturating_sub(2),
        usize::from(disc.size.saturating_sub(24)),
    );
    ends(voice, &mut bench, disc.blocks.saturating_sub(1));
}
