// States as a caller may make them up, sound or not.
use disc::BytePlace;
use state::{AnswerAt, DiscAt, Host, ListAt, Media, Sense, State, Transfer};

pub(crate) fn answer(at: usize, left: usize) -> Transfer {
    Transfer::Answer(AnswerAt { at, left })
}

fn on_disc(at: usize, left: usize) -> DiscAt {
    DiscAt {
        at: BytePlace(at),
        left,
    }
}

pub(crate) fn read(at: usize, left: usize) -> Transfer {
    Transfer::Read(on_disc(at, left))
}

pub(crate) fn write(at: usize, left: usize) -> Transfer {
    Transfer::Write(on_disc(at, left))
}

pub(crate) fn list(track: u8, left: usize) -> Transfer {
    Transfer::ParameterList(ListAt { track, left })
}

// The triple of a number below 2^24.
pub(crate) fn triple(n: u32) -> Sense {
    let [_, key, code, qualifier] = n.to_be_bytes();
    Sense(key, code, qualifier)
}

// The motor flag and both attention flags are set, or clear.
fn made(disc: u8, protected: bool, flags: bool, sense: Sense, transfer: Transfer) -> State {
    State {
        media: Media { disc, protected },
        motor: flags,
        host: Host {
            power: flags,
            change: flags,
            sense,
        },
        transfer,
    }
}

// No flag and no sense.
pub(crate) fn plain(number: u8, protected: bool, transfer: Transfer) -> State {
    made(number, protected, false, state::NO_SENSE, transfer)
}

// The same on disc 4.
pub(crate) fn open(transfer: Transfer) -> State {
    plain(4, false, transfer)
}

// No flag, and nothing open on disc 4.
pub(crate) fn sensed(sense: Sense) -> State {
    made(4, false, false, sense, Transfer::Closed)
}

// Every flag; the triple is named where the qualifier is 0.
pub(crate) fn flagged(number: u8, transfer: Transfer, qualifier: u8) -> State {
    made(number, false, true, Sense(0x05, 0x24, qualifier), transfer)
}
