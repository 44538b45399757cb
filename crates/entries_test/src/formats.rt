// Discs 1 to 3 formatted: each side of the first and of the last track, and all blocks; lists that are refused, and protection.
use crate::calls::Bench;
use crate::steps::{READ, Step, WRITE};
use crate::table::{DISC_1, DISC_2, DISC_3, Disc};
use crate::{say, states, steps};
use shell::Voice;
use state::Transfer;

// A FORMAT UNIT of a track, and its list.
fn format(voice: &mut Voice, bench: &mut Bench, track: u8, list: Step) {
    bench.play(voice, steps::format(track));
    bench.play(voice, list);
}

// The track after the last has its command failed, and its list comes to nothing; two lists have all bits set that aren't judged.
fn taken(voice: &mut Voice, bench: &mut Bench, disc: Disc) {
    let blocks = u32::from(disc.blocks);
    let size = u32::from(disc.size);
    let last = disc.last_track;
    let after = last.saturating_add(1);
    let bits = 0xff000000 + size;
    format(voice, bench, 0, steps::list(0x10, blocks, size));
    format(voice, bench, 0, steps::list(0x11, blocks, size));
    format(voice, bench, last, steps::list(0x10, blocks, size));
    format(voice, bench, last, steps::list(0x11, blocks, size));
    format(voice, bench, after, steps::list(0x10, blocks, size));
    format(voice, bench, 2, steps::piece(0xfffc0008, blocks, bits, 12));
    format(voice, bench, 2, steps::piece(0xfffd0008, blocks, bits, 12));
}

// The other disc has other blocks and another block length.
fn refused(voice: &mut Voice, bench: &mut Bench, disc: Disc, other: Disc) {
    let blocks = u32::from(disc.blocks);
    let size = u32::from(disc.size);
    let other_blocks = u32::from(other.blocks);
    let other_size = u32::from(other.size);
    let more_blocks = 0x01000000 + blocks;
    let longer = 0x00010000 + size;
    format(voice, bench, 4, steps::list(0x10, other_blocks, size));
    format(voice, bench, 4, steps::list(0x10, blocks, other_size));
    format(voice, bench, 4, steps::list(0x00, other_blocks, other_size));
    format(voice, bench, 4, steps::list(0x10, more_blocks, size));
    format(voice, bench, 4, steps::list(0x10, blocks, longer));
    format(voice, bench, 4, steps::list(0x12, blocks, size));
    format(voice, bench, 4, steps::list(0x03, blocks, size));
}

// Tracks of a disc, and lists that are refused for a track as it was.
#[inline(never)]
fn tracks(voice: &mut Voice, disc: Disc, other: Disc) {
    let empty = states::plain(disc.number, false, Transfer::Closed);
    let mut bench = Bench::new(empty, disc.bytes, 0xd4);
    say::title(voice, disc.number);
    say::text(voice, b", tracks of");
    say::count(voice, usize::from(disc.sectors));
    say::text(voice, b" blocks formatted\n");
    taken(voice, &mut bench, disc);
    refused(voice, &mut bench, disc, other);
}

// A disc that is protected at first, then all blocks, whatever the track and the side; a block stored between is formatted too.
#[inline(never)]
fn whole(voice: &mut Voice, disc: Disc) {
    let blocks = u32::from(disc.blocks);
    let size = u32::from(disc.size);
    let last = disc.last_track;
    let protected = states::plain(disc.number, true, Transfer::Closed);
    let mut bench = Bench::new(protected, disc.bytes, 0xd4);
    say::title(voice, disc.number);
    say::text(voice, b", protected, then all of it formatted\n");
    format(voice, &mut bench, last, steps::list(0x00, blocks, size));
    bench.play(voice, steps::format(last.saturating_add(1)));
    bench.state = states::plain(disc.number, false, Transfer::Closed);
    format(voice, &mut bench, last, steps::list(0x01, blocks, size));
    bench.play(voice, steps::command(WRITE, 0, 0, 1));
    bench.play(voice, steps::feed(0xa1, usize::from(disc.size)));
    bench.play(voice, steps::command(READ, 0, 0, 2));
    bench.play(voice, steps::pull(1024));
    format(voice, &mut bench, 0, steps::list(0x00, blocks, size));
}

pub(crate) fn all(voice: &mut Voice) {
    for (disc, other) in [(DISC_1, DISC_2), (DISC_2, DISC_3), (DISC_3, DISC_2)] {
        tracks(voice, disc, other);
        whole(voice, disc);
    }
}
