// States that are not sound, clause by clause, and for each clause a neighbour that is. All buffers have the right lengths.
use crate::calls::Case;
use crate::entries::{Calls, Entry};
use crate::table::{DISC_1, DISC_2, DISC_3, DISC_4, Disc};
use crate::{calls, say, states, table};
use shell::Voice;
use state::{Sense, State, Transfer};

fn called(voice: &mut Voice, label: &[u8], calls: Calls, state: State) {
    let case = Case {
        label,
        state,
        caller: 12,
        buffer: 1024,
        disc: table::bytes(state.media.disc),
    };
    calls::fresh(voice, calls, case);
}

// A state that every entry has to refuse.
fn unsound(voice: &mut Voice, label: &[u8], state: State) {
    called(voice, label, Calls::Each, state);
}

// The entry that goes on with a transfer.
fn taker(transfer: Transfer) -> Entry {
    match transfer {
        Transfer::Closed => Entry::Eject,
        Transfer::Answer(_) | Transfer::Read(_) => Entry::Pull,
        Transfer::Write(_) | Transfer::ParameterList(_) => Entry::Feed,
    }
}

// A state that an entry has to take.
fn sound(voice: &mut Voice, label: &[u8], state: State) {
    called(voice, label, Calls::One(taker(state.transfer)), state);
}

fn media(voice: &mut Voice) {
    let closed = Transfer::Closed;
    let protected = states::plain(0, true, closed);
    let read = states::plain(0, false, states::read(0, 512));
    let write = states::plain(0, false, states::write(0, 512));
    let list = states::plain(0, false, states::list(0, 12));
    let answer = states::plain(0, false, states::answer(0, 4));
    unsound(voice, b"disc 5", states::plain(5, false, closed));
    unsound(voice, b"disc 255", states::plain(255, false, closed));
    sound(voice, b"disc 4", states::open(closed));
    unsound(voice, b"protection, no disc", protected);
    sound(voice, b"protection, disc 4", states::plain(4, true, closed));
    unsound(voice, b"a read, no disc", read);
    unsound(voice, b"a write, no disc", write);
    unsound(voice, b"a list, no disc", list);
    sound(voice, b"an answer, no disc", answer);
}

// Says a triple with which a state is sound.
fn say_sound(voice: &mut Voice, sense: Sense) {
    if drive::eject(states::sensed(sense)).is_ok() {
        say::text(voice, b" |");
        say::sense(voice, sense);
    }
}

fn sound_triples(voice: &mut Voice) {
    for n in 0..16777216 {
        say_sound(voice, states::triple(n));
    }
}

fn triples(voice: &mut Voice) {
    let key = states::sensed(Sense(0x04, 0x24, 0x00));
    let code = states::sensed(Sense(0x05, 0x23, 0x00));
    let qualifier = states::sensed(Sense(0x05, 0x24, 0x01));
    unsound(voice, b"key 04", key);
    unsound(voice, b"code 23", code);
    unsound(voice, b"qualifier 01", qualifier);
    say::text(voice, b"all sound triples:");
    sound_triples(voice);
    say::text(voice, b"\n");
}

// The same on disc 4.
fn unsound_open(voice: &mut Voice, label: &[u8], transfer: Transfer) {
    unsound(voice, label, states::open(transfer));
}

fn sound_open(voice: &mut Voice, label: &[u8], transfer: Transfer) {
    sound(voice, label, states::open(transfer));
}

fn left(voice: &mut Voice) {
    unsound_open(voice, b"an answer, 0 left", states::answer(100, 0));
    sound_open(voice, b"an answer, 1 left", states::answer(100, 1));
    unsound_open(voice, b"a read, 0 left", states::read(512, 0));
    sound_open(voice, b"a read, 1 left", states::read(512, 1));
    unsound_open(voice, b"a write, 0 left", states::write(512, 0));
    sound_open(voice, b"a write, 1 left", states::write(1023, 1));
}

fn ends(voice: &mut Voice) {
    unsound_open(voice, b"an answer to 1025", states::answer(1000, 25));
    sound_open(voice, b"an answer to 1024", states::answer(1000, 24));
    unsound_open(voice, b"a read to 32769", states::read(32760, 9));
    sound_open(voice, b"a read to 32768", states::read(32760, 8));
    unsound_open(voice, b"a write to 33280", states::write(32256, 1024));
    sound_open(voice, b"a write to 32768", states::write(32256, 512));
}

// More left than there is at all.
fn long(voice: &mut Voice) {
    unsound_open(voice, b"an answer of 1025", states::answer(0, 1025));
    unsound_open(voice, b"a read of 32769", states::read(0, 32769));
    unsound_open(voice, b"a write of 33280", states::write(0, 33280));
}

// A byte past the ends of the other discs.
fn disc_ends(voice: &mut Voice) {
    let disc_1 = states::plain(1, false, states::read(737279, 2));
    let disc_2 = states::plain(2, false, states::read(1261567, 2));
    let disc_3 = states::plain(3, false, states::read(1474559, 2));
    unsound(voice, b"a read to 737281, disc 1", disc_1);
    unsound(voice, b"a read to 1261569, disc 2", disc_2);
    unsound(voice, b"a read to 1474561, disc 3", disc_3);
}

// Ends past 2^64, which wrap to small numbers in 64 bits.
fn far_ends(voice: &mut Voice) {
    let last = usize::MAX;
    let write = states::write(last - 511, 1024);
    unsound_open(voice, b"an answer to 2^64 + 1", states::answer(last, 2));
    unsound_open(voice, b"a read to 2^64 + 1", states::read(last, 2));
    unsound_open(voice, b"a write to 2^64 + 512", write);
}

fn writes(voice: &mut Voice) {
    let block = states::write(0, 512);
    let disc_1 = states::plain(1, false, block);
    let disc_2 = states::plain(2, false, block);
    let write = states::plain(4, true, block);
    let read = states::plain(4, true, states::read(0, 512));
    unsound_open(voice, b"a write to 511", states::write(100, 411));
    sound_open(voice, b"a write to 512", states::write(100, 412));
    unsound(voice, b"a write to 512, disc 2", disc_2);
    sound(voice, b"a write to 512, disc 1", disc_1);
    unsound(voice, b"a write, protected", write);
    sound(voice, b"a read, protected", read);
}

fn lists(voice: &mut Voice) {
    let longest = states::list(0, usize::MAX);
    let list = states::plain(4, true, states::list(0, 12));
    unsound_open(voice, b"a list, 0 left", states::list(0, 0));
    sound_open(voice, b"a list, 1 left", states::list(0, 1));
    unsound_open(voice, b"a list, 13 left", states::list(0, 13));
    unsound_open(voice, b"a list, 2^64 - 1 left", longest);
    sound_open(voice, b"a list, 12 left", states::list(0, 12));
    unsound(voice, b"a list, protected", list);
}

// A list for the track after a disc's last, and one for the last.
fn last_track(voice: &mut Voice, disc: Disc) {
    let last = states::list(disc.last_track, 12);
    let after = states::list(disc.last_track.saturating_add(1), 12);
    let after = states::plain(disc.number, false, after);
    let last = states::plain(disc.number, false, last);
    unsound(voice, b"a list, the track after the last", after);
    sound(voice, b"a list, the last track", last);
}

fn tracks(voice: &mut Voice) {
    for disc in [DISC_1, DISC_2, DISC_3, DISC_4] {
        last_track(voice, disc);
    }
    unsound_open(voice, b"a list, track 255", states::list(255, 12));
}

pub(crate) fn all(voice: &mut Voice) {
    say::text(
        voice,
        b"= unsound states: command, feed, pull, insertion, ejection; and sound neighbours\n",
    );
    media(voice);
    triples(voice);
    left(voice);
    ends(voice);
    long(voice);
    disc_ends(voice);
    far_ends(voice);
    writes(voice);
    lists(voice);
    tracks(voice);
}
