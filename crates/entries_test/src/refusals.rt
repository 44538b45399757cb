// House refusals by what is lent, and their order.
use crate::calls::Case;
use crate::entries::{Calls, Entry};
use crate::{calls, say, states};
use shell::Voice;
use state::{Media, State, Transfer};

fn lending(label: &[u8], state: State, caller: usize, buffer: usize, disc: usize) -> Case {
    Case {
        label,
        state,
        caller,
        buffer,
        disc,
    }
}

fn called(voice: &mut Voice, entry: Entry, cases: &[Case]) {
    for case in cases {
        calls::fresh(voice, Calls::One(entry), *case);
    }
}

fn packets(voice: &mut Voice) {
    let sound = states::flagged(4, states::write(612, 412), 0);
    let unsound = states::flagged(4, states::write(612, 412), 1);
    let cases = [
        lending(b"a packet of 11", sound, 11, 1024, 32768),
        lending(b"a packet of 13", sound, 13, 1024, 32768),
        lending(b"a packet of 0", sound, 0, 1024, 32768),
        lending(b"a packet of 11, unsound", unsound, 11, 1024, 32768),
        lending(b"all of it wrong", unsound, 11, 1023, 0),
    ];
    called(voice, Entry::Command, &cases);
}

// The tests 2, 3 and 4, which command, feed and pull share.
fn lengths(voice: &mut Voice, entry: Entry, transfer: Transfer) {
    let sound = states::flagged(4, transfer, 0);
    let unsound = states::flagged(4, transfer, 1);
    let other = states::flagged(2, transfer, 0);
    let empty = states::flagged(0, states::answer(0, 4), 0);
    let cases = [
        lending(b"unsound", unsound, 12, 1024, 32768),
        lending(b"a block buffer of 1023", sound, 12, 1023, 32768),
        lending(b"a block buffer of 1025", sound, 12, 1025, 32768),
        lending(b"a block buffer of 0", sound, 12, 0, 32768),
        lending(b"a disc of 32767", sound, 12, 1024, 32767),
        lending(b"a disc of 32769", sound, 12, 1024, 32769),
        lending(b"disc 2 of 737280", other, 12, 1024, 737280),
        lending(b"a disc, none is in", empty, 12, 1024, 32768),
        lending(b"unsound, both lengths wrong", unsound, 12, 1023, 0),
        lending(b"both lengths wrong", sound, 12, 1023, 0),
    ];
    called(voice, entry, &cases);
}

// An event is lent no more than a disc.
fn event(voice: &mut Voice, label: &[u8], entry: Entry, state: State, disc: usize) {
    let case = lending(label, state, 0, 1024, disc);
    calls::fresh(voice, Calls::One(entry), case);
}

fn insert(voice: &mut Voice, label: &[u8], state: State, number: u8, disc: usize) {
    let media = Media {
        disc: number,
        protected: true,
    };
    event(voice, label, Entry::Insert(media), state, disc);
}

fn insertions(voice: &mut Voice) {
    let open = states::answer(0, 4);
    let empty = states::flagged(0, open, 0);
    let empty_unsound = states::flagged(0, open, 1);
    let full = states::flagged(4, open, 0);
    let full_unsound = states::flagged(4, open, 1);
    insert(voice, b"unsound", empty_unsound, 4, 32768);
    insert(voice, b"a disc is in", full, 4, 32768);
    insert(voice, b"disc 0", empty, 0, 0);
    insert(voice, b"disc 5", empty, 5, 32768);
    insert(voice, b"disc 255", empty, 255, 32768);
    insert(voice, b"disc 4 of 32767", empty, 4, 32767);
    insert(voice, b"disc 2 of 737280", empty, 2, 737280);
    insert(voice, b"all of it wrong", full_unsound, 5, 32767);
    insert(voice, b"a disc is in, disc 5", full, 5, 32767);
    insert(voice, b"disc 0 of 32768", empty, 0, 32768);
    insert(voice, b"disc 4 of 32768", empty, 4, 32768);
}

fn eject(voice: &mut Voice, label: &[u8], number: u8, qualifier: u8, disc: usize) {
    let state = states::flagged(number, states::answer(0, 4), qualifier);
    event(voice, label, Entry::Eject, state, disc);
}

fn ejections(voice: &mut Voice) {
    eject(voice, b"unsound", 4, 1, 32768);
    eject(voice, b"none is in", 0, 0, 0);
    eject(voice, b"unsound, none is in", 0, 1, 0);
    eject(voice, b"disc 4 is in", 4, 0, 32768);
}

pub(crate) fn all(voice: &mut Voice) {
    say::text(voice, b"= command: house tests 1, 2, 3, 4\n");
    packets(voice);
    lengths(voice, Entry::Command, states::write(612, 412));
    say::text(voice, b"= feed: house tests 2, 3, 4\n");
    lengths(voice, Entry::Feed, states::write(612, 412));
    say::text(voice, b"= pull: house tests 2, 3, 4\n");
    lengths(voice, Entry::Pull, states::read(612, 412));
    say::text(voice, b"= insertion: house tests 2, 5, 7, 4\n");
    insertions(voice);
    say::text(voice, b"= ejection: house tests 2, 6\n");
    ejections(voice);
}
