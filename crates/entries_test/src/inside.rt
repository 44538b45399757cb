// Transfers that no command opens, and pieces longer than a block of 512.
use crate::calls::Bench;
use crate::steps::TEST_UNIT_READY;
use crate::table::DISC_4;
use crate::{say, states, steps};
use shell::Voice;

// The states that are made up are sound. The write has a block completed, and the next one broken off by a command.
#[inline(never)]
pub(crate) fn all(voice: &mut Voice) {
    let mut bench = Bench::new(drive::power_on(), DISC_4.bytes, 0xd4);
    say::text(
        voice,
        b"= a write and a read inside blocks, an answer behind byte 40, both over three blocks\n",
    );
    bench.state = states::open(states::write(612, 924));
    bench.play(voice, steps::feed(0xa1, 411));
    bench.play(voice, steps::feed(0xb2, 1));
    bench.play(voice, steps::feed(0xc3, 88));
    bench.play(voice, steps::command(TEST_UNIT_READY, 0, 0, 0));
    bench.state = states::open(states::read(1000, 100));
    bench.play(voice, steps::pull(64));
    bench.play(voice, steps::pull(64));
    bench.state = states::open(states::answer(80, 30));
    bench.play(voice, steps::pull(16));
    bench.play(voice, steps::pull(16));
    bench.state = states::open(states::write(612, 1436));
    bench.play(voice, steps::feed(0xe5, 1024));
    bench.state = states::open(states::read(600, 1000));
    bench.play(voice, steps::pull(1000));
}
