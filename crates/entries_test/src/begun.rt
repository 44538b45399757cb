// Parameter lists on disc 4 that no command has begun, with what the block buffer then holds; lists in pieces, and broken off.
// The states that are made up are sound. The writes are there for what they leave in the block buffer.
use crate::calls::Bench;
use crate::steps::{READ, TEST_UNIT_READY};
use crate::table::DISC_4;
use crate::{say, states, steps};
use shell::Voice;

// The last byte of a list comes.
fn last_bytes(voice: &mut Voice, bench: &mut Bench) {
    bench.state = states::open(states::write(0, 512));
    bench.play(voice, steps::list(0x10, 64, 512));
    bench.state = states::open(states::list(3, 1));
    bench.play(voice, steps::feed(0x00, 1));
    bench.state = states::open(states::list(2, 1));
    bench.play(voice, steps::feed(0x01, 1));
    bench.state = states::open(states::list(2, 1));
    bench.play(voice, steps::feed(0x00, 3));
    // a defect list length of 0108
    bench.state = states::open(states::write(0, 512));
    bench.play(voice, steps::piece(0x00100108, 64, 512, 12));
    bench.state = states::open(states::list(1, 1));
    bench.play(voice, steps::feed(0x00, 1));
}

// All but the first byte of a list come, and two lists in two pieces.
fn pieces(voice: &mut Voice, bench: &mut Bench) {
    bench.state = states::open(states::list(1, 11));
    bench.play(voice, steps::piece(0x10000800, 0x00004000, 0x000200cc, 12));
    bench.state = states::open(states::write(0, 512));
    bench.play(voice, steps::feed(0xbb, 12));
    bench.state = states::open(states::list(1, 12));
    bench.play(voice, steps::piece(0x00110008, 0, 0, 5));
    bench.play(voice, steps::pull(64));
    bench.play(voice, steps::feed(0xcc, 0));
    bench.play(voice, steps::piece(0x00004000, 0x000200cc, 0xcccccccc, 12));
    bench.play(voice, steps::list(0x00, 64, 512));
}

// With a sense and flags.
fn flagged(voice: &mut Voice, bench: &mut Bench) {
    let flagged = states::flagged(4, states::list(0, 12), 0);
    bench.state = flagged;
    bench.play(voice, steps::list(0x10, 64, 512));
    bench.state = flagged;
    bench.play(voice, steps::list(0x11, 63, 512));
    bench.state = flagged;
    bench.play(voice, steps::piece(0x00110008, 64, 512, 11));
}

fn broken_off(voice: &mut Voice, bench: &mut Bench) {
    bench.play(voice, steps::command(TEST_UNIT_READY, 0, 0, 0));
    bench.play(voice, steps::feed(0x00, 1));
    bench.state = states::open(states::list(0, 1));
    bench.play(voice, steps::format(3));
    bench.play(voice, steps::feed(0x00, 1));
    bench.play(voice, steps::command(READ, 0, 0, 1));
    bench.play(voice, steps::list(0x00, 64, 512));
}

#[inline(never)]
pub(crate) fn all(voice: &mut Voice) {
    let mut bench = Bench::new(drive::power_on(), DISC_4.bytes, 0xd4);
    say::text(
        voice,
        b"= lists begun in the block buffer, in pieces, with a sense and flags, and broken off\n",
    );
    last_bytes(voice, &mut bench);
    pieces(voice, &mut bench);
    flagged(voice, &mut bench);
    broken_off(voice, &mut bench);
}
