// What a packet says: its fields, and the base command that it is.
#![tactic(auto)]

ghost use Rattle.std.specs.Prelude.{◌≡◌};
ghost use Rattle.packet.specs.Fields.{address_of, length_of};
ghost use Rattle.packet.specs.Rules.{asking_of, base_of, rule_of};

use disc::BlockAddress;
use ground::{byte, long_of, word_of};

// Numbers and no enum: a packet's byte 0 may be any, and the paper matches it by these names.
pub const TEST_UNIT_READY: u8 = 0x00;

pub const REZERO_UNIT: u8 = 0x01;

pub const REQUEST_SENSE: u8 = 0x03;

pub const FORMAT_UNIT: u8 = 0x04;

pub const INQUIRY: u8 = 0x12;

pub const START_STOP_UNIT: u8 = 0x1b;

pub const PREVENT_REMOVAL: u8 = 0x1e;

pub const READ_FORMAT_CAPACITIES: u8 = 0x23;

pub const READ_CAPACITY: u8 = 0x25;

pub const READ_10: u8 = 0x28;

pub const WRITE_10: u8 = 0x2a;

pub const SEEK: u8 = 0x2b;

pub const WRITE_AND_VERIFY: u8 = 0x2e;

pub const VERIFY: u8 = 0x2f;

pub const MODE_SENSE: u8 = 0x5a;

pub const READ_12: u8 = 0xa8;

pub const WRITE_12: u8 = 0xaa;

// Which of the checks B, C, D, G and H are asked.
#[derive(Clone, Copy)]
pub struct Asked {
    pub unit: bool,
    pub attention: bool,
    pub disc: bool,
    pub range: bool,
    pub unprotected: bool,
}

// A check that is asked, by its letter, and one that isn't.
const B: bool = true;

const C: bool = true;

const D: bool = true;

const G: bool = true;

const H: bool = true;

const NO: bool = false;

// What the checks F and F2 look at: nothing, bits of byte 4 that have to be zero, page and page control, or the fields of FORMAT UNIT.
#[derive(Clone, Copy)]
pub enum Values {
    Any,
    ZeroBits(u8),
    Page,
    FormatUnit,
}

const ANY: Values = Values::Any;

const BIT_0_ZERO: Values = Values::ZeroBits(0x01);

const BIT_1_ZERO: Values = Values::ZeroBits(0x02);

const PAGE: Values = Values::Page;

const FORMAT: Values = Values::FormatUnit;

// Where a command has its length.
#[derive(Clone, Copy)]
pub enum Field {
    Nowhere,
    Byte4,
    Bytes7To8,
    Bytes6To9,
}

const NOWHERE: Field = Field::Nowhere;

const BYTE_4: Field = Field::Byte4;

const BYTES_7_8: Field = Field::Bytes7To8;

const BYTES_6_9: Field = Field::Bytes6To9;

#[derive(Clone, Copy)]
pub enum Answering {
    Sense,
    Inquiry,
    FormatCapacities,
    Capacity,
    Mode,
}

// What a command does when it has passed.
#[derive(Clone, Copy)]
pub enum Routine {
    Nothing,
    Motor,
    Answer(Answering),
    Read,
    Write,
    ParameterList,
}

const NOTHING: Routine = Routine::Nothing;

const MOTOR: Routine = Routine::Motor;

const GIVE_SENSE: Routine = Routine::Answer(Answering::Sense);

const GIVE_INQUIRY: Routine = Routine::Answer(Answering::Inquiry);

const GIVE_FORMATS: Routine = Routine::Answer(Answering::FormatCapacities);

const GIVE_CAPACITY: Routine = Routine::Answer(Answering::Capacity);

const GIVE_MODE: Routine = Routine::Answer(Answering::Mode);

const READ: Routine = Routine::Read;

const WRITE: Routine = Routine::Write;

const TAKE_LIST: Routine = Routine::ParameterList;

// A base command: its row of the masks, its check set, its routine.
#[derive(Clone, Copy)]
pub struct Rule {
    pub row: usize,
    pub asked: Asked,
    pub values: Values,
    pub length: Field,
    pub routine: Routine,
}

#[tactic(auto, unfolding(crate::specs::Fields::address_of))]
pub fn address(packet: &[u8]) -> BlockAddress
    ensures { result ≡ address_of packet.now }
{
    BlockAddress(long_of(
        byte(packet, 2),
        byte(packet, 3),
        byte(packet, 4),
        byte(packet, 5),
    ))
}

#[tactic(auto, unfolding(crate::specs::Fields::length_of))]
pub fn length(field: Field, packet: &[u8]) -> u32
    ensures { result ≡ length_of field packet.now }
{
    match field {
        Field::Nowhere => 0,
        Field::Byte4 => u32::from(byte(packet, 4)),
        Field::Bytes7To8 => word_of(byte(packet, 7), byte(packet, 8)),
        Field::Bytes6To9 => long_of(
            byte(packet, 6),
            byte(packet, 7),
            byte(packet, 8),
            byte(packet, 9),
        ),
    }
}

fn asking(unit: bool, attention: bool, disc: bool, range: bool, unprotected: bool) -> Asked
    ensures { result ≡ asking_of unit attention disc range unprotected }
{
    Asked {
        unit,
        attention,
        disc,
        range,
        unprotected,
    }
}

fn base(row: usize, asked: Asked, values: Values, length: Field, routine: Routine) -> Option<Rule>
    ensures { result ≡ base_of row asked values length routine }
{
    Some(Rule {
        row,
        asked,
        values,
        length,
        routine,
    })
}

// Check A, and each base command's row, check set and routine.
#[tactic(auto, unfolding(crate::specs::Rules::rule_of, crate::specs::Rules::rules))]
pub fn rule_of(packet: &[u8]) -> Option<Rule>
    ensures { result ≡ rule_of packet.now }
{
    match byte(packet, 0) {
        TEST_UNIT_READY => base(0, asking(B, C, D, NO, NO), ANY, NOWHERE, NOTHING),
        REZERO_UNIT => base(1, asking(B, C, D, NO, NO), ANY, NOWHERE, NOTHING),
        REQUEST_SENSE => base(2, asking(B, NO, NO, NO, NO), ANY, BYTE_4, GIVE_SENSE),
        INQUIRY => base(3, asking(NO, NO, NO, NO, NO), ANY, BYTE_4, GIVE_INQUIRY),
        START_STOP_UNIT => base(4, asking(B, C, NO, NO, NO), BIT_1_ZERO, NOWHERE, MOTOR),
        PREVENT_REMOVAL => base(5, asking(B, C, NO, NO, NO), BIT_0_ZERO, NOWHERE, NOTHING),
        READ_FORMAT_CAPACITIES => base(6, asking(B, C, NO, NO, NO), ANY, BYTES_7_8, GIVE_FORMATS),
        READ_CAPACITY => base(7, asking(B, C, D, NO, NO), ANY, NOWHERE, GIVE_CAPACITY),
        READ_10 => base(8, asking(B, C, D, G, NO), ANY, BYTES_7_8, READ),
        WRITE_10 => base(9, asking(B, C, D, G, H), ANY, BYTES_7_8, WRITE),
        SEEK => base(10, asking(B, C, D, G, NO), ANY, NOWHERE, NOTHING),
        WRITE_AND_VERIFY => base(11, asking(B, C, D, G, H), ANY, BYTES_7_8, WRITE),
        VERIFY => base(12, asking(B, C, D, G, NO), ANY, BYTES_7_8, NOTHING),
        MODE_SENSE => base(13, asking(B, C, D, NO, NO), PAGE, BYTES_7_8, GIVE_MODE),
        READ_12 => base(14, asking(B, C, D, G, NO), ANY, BYTES_6_9, READ),
        WRITE_12 => base(15, asking(B, C, D, G, H), ANY, BYTES_6_9, WRITE),
        FORMAT_UNIT => base(16, asking(B, C, D, NO, H), FORMAT, BYTES_7_8, TAKE_LIST),
        _ => None,
    }
}
