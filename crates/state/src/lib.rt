// What the drive remembers, and what each kind of call makes of it.
#![tactic(auto)]

ghost use Rattle.std.specs.Prelude.{◌≡◌};
ghost use Rattle.state.specs.Senses.{named_b};
ghost use Rattle.state.specs.States.{power_on, told, left_of, is_open_b, closed_at_zero, inserted_of, sense_after, ejected_of, obeyed_of, moved_of};

use disc::BytePlace;

// Key, additional code, qualifier.
#[derive(Clone, Copy, PartialEq, Eq)]
pub struct Sense(pub u8, pub u8, pub u8);

pub const NO_SENSE: Sense = Sense(0x00, 0x00, 0x00);

pub const UNKNOWN_CODE: Sense = Sense(0x05, 0x20, 0x00);

pub const OTHER_UNIT: Sense = Sense(0x05, 0x25, 0x00);

pub const POWER_ON: Sense = Sense(0x06, 0x29, 0x00);

pub const CHANGE: Sense = Sense(0x06, 0x28, 0x00);

pub const NO_DISC: Sense = Sense(0x02, 0x3a, 0x00);

pub const BAD_FIELD: Sense = Sense(0x05, 0x24, 0x00);

pub const NOT_SAVED: Sense = Sense(0x05, 0x39, 0x00);

pub const OUT_OF_RANGE: Sense = Sense(0x05, 0x21, 0x00);

pub const PROTECTED: Sense = Sense(0x07, 0x27, 0x00);

pub const BAD_LIST: Sense = Sense(0x05, 0x26, 0x00);

// The number of the disc that is in, 0 for none as the paper has it, and its protection.
#[derive(Clone, Copy)]
pub struct Media {
    pub disc: u8,
    pub protected: bool,
}

const NO_MEDIA: Media = Media {
    disc: 0,
    protected: false,
};

// What is remembered for the host: the attentions that it has not been told of, and its sense.
#[derive(Clone, Copy)]
pub struct Host {
    pub power: bool,
    pub change: bool,
    pub sense: Sense,
}

// An answer: `at` counts in the block buffer.
#[derive(Clone, Copy)]
pub struct AnswerAt {
    pub at: usize,
    pub left: usize,
}

// A read or a write: `at` is a place on the disc.
#[derive(Clone, Copy)]
pub struct DiscAt {
    pub at: BytePlace,
    pub left: usize,
}

// The bytes of a parameter list.
pub const LIST_BYTES: usize = 12;

// A parameter list: the track that its command names, and how many of its bytes are to come.
#[derive(Clone, Copy)]
pub struct ListAt {
    pub track: u8,
    pub left: usize,
}

#[derive(Clone, Copy)]
pub enum Transfer {
    Closed,
    Answer(AnswerAt),
    Read(DiscAt),
    Write(DiscAt),
    ParameterList(ListAt),
}

#[derive(Clone, Copy)]
pub struct State {
    pub media: Media,
    pub motor: bool,
    pub host: Host,
    pub transfer: Transfer,
}

// The triples above.
const NAMED: [Sense; 11] = [
    NO_SENSE,
    UNKNOWN_CODE,
    OTHER_UNIT,
    POWER_ON,
    CHANGE,
    NO_DISC,
    BAD_FIELD,
    NOT_SAVED,
    OUT_OF_RANGE,
    PROTECTED,
    BAD_LIST,
];

// Whether a triple is one of those above.
#[tactic(auto, unfolding(crate::specs::Senses::named_b))]
pub fn named(sense: Sense) -> bool
    ensures { result ≡ named_b sense }
{
    NAMED.contains(&sense)
}

pub fn power_on() -> State
    ensures { result ≡ power_on }
{
    State {
        media: NO_MEDIA,
        motor: false,
        host: Host {
            power: true,
            change: false,
            sense: NO_SENSE,
        },
        transfer: Transfer::Closed,
    }
}

// The host is told a triple: it is its sense, and the attention that it reports is no longer pending.
fn tell(host: Host, sense: Sense) -> Host
    ensures { result ≡ told host sense }
{
    Host {
        power: sense != POWER_ON && host.power,
        change: sense != CHANGE && host.change,
        sense,
    }
}

fn left_of(transfer: Transfer) -> usize
    ensures { result ≡ left_of transfer }
{
    match transfer {
        Transfer::Closed => 0,
        Transfer::Answer(AnswerAt { left, .. })
        | Transfer::Read(DiscAt { left, .. })
        | Transfer::Write(DiscAt { left, .. })
        | Transfer::ParameterList(ListAt { left, .. }) => left,
    }
}

fn closed_at_zero(transfer: Transfer) -> Transfer
    ensures { result ≡ closed_at_zero transfer }
{
    if left_of(transfer) == 0 {
        Transfer::Closed
    } else {
        transfer
    }
}

// After an accepted insertion.
#[tactic(auto, unfolding(crate::specs::States::inserted_of))]
pub fn inserted(state: State, number: u8, protected: bool) -> State
    ensures { result ≡ inserted_of state number protected }
{
    State {
        media: Media {
            disc: number,
            protected,
        },
        host: Host {
            change: true,
            ..state.host
        },
        ..state
    }
}

fn is_open(transfer: Transfer) -> bool
    ensures { result ≡ is_open_b transfer }
{
    !matches!(transfer, Transfer::Closed)
}

// The sense after an ejection: a transfer that it breaks off, of any kind, leaves 'no disc'.
fn sense_after(sense: Sense, transfer: Transfer) -> Sense
    ensures { result ≡ sense_after sense transfer }
{
    if is_open(transfer) { NO_DISC } else { sense }
}

// After an accepted ejection.
#[tactic(auto, unfolding(crate::specs::States::ejected_of))]
pub fn ejected(state: State) -> State
    ensures { result ≡ ejected_of state }
{
    let sense = sense_after(state.host.sense, state.transfer);
    State {
        media: NO_MEDIA,
        host: Host {
            sense,
            ..state.host
        },
        transfer: Transfer::Closed,
        ..state
    }
}

// After a command: the triple that it answers, its motor flag and its transfer.
#[tactic(auto, unfolding(crate::specs::States::obeyed_of))]
pub fn obeyed(state: State, sense: Sense, motor: bool, transfer: Transfer) -> State
    ensures { result ≡ obeyed_of state sense motor transfer }
{
    State {
        motor,
        host: tell(state.host, sense),
        transfer: closed_at_zero(transfer),
        ..state
    }
}

// After bytes have moved: the same but for the transfer.
#[tactic(auto, unfolding(crate::specs::States::moved_of))]
pub fn moved(state: State, transfer: Transfer) -> State
    ensures { result ≡ moved_of state transfer }
{
    State {
        transfer: closed_at_zero(transfer),
        ..state
    }
}
