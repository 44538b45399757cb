// The bytes of a script, taken apart record by record.
#![tactic(auto)]

ghost use Rattle.std.specs.Prelude.{◌≡◌};
ghost use Rattle.record.specs.Records.{length_field, kind_field, whole_b, if_whole, insert_record, pull_record, record_of};
ghost use Rattle.record.specs.Waiting.{enough_b};

use ground::{byte, little_of};

// What a record asks to be played.
#[derive(Clone, Copy)]
pub enum Record {
    // the disc's number and its protection
    Insert(u8, bool),
    Eject,
    // the packet is the 12 bytes after the header
    Command,
    // the piece is so many bytes after the header
    Feed(usize),
    // so many bytes are asked for
    Pull(usize),
}

// Length and kind.
pub const HEADER_BYTES: usize = 4;

// The whole length of each kind that has but one.
const INSERT_BYTES: usize = 6;

const EJECT_BYTES: usize = 4;

pub const COMMAND_BYTES: usize = 16;

const PULL_BYTES: usize = 6;

// The most that a pull may ask for, and the most bytes of a piece.
pub const PIECE_BYTES: usize = 512;

// The longest record of a script.
pub const RECORD_BYTES: usize = 516;

// The kinds, as the wire numbers them: matched in one place, so that an enum would be no plainer.
const INSERT: usize = 1;

const EJECT: usize = 2;

const COMMAND: usize = 3;

const FEED: usize = 4;

const PULL: usize = 5;

pub fn length_field(bytes: &[u8]) -> usize
    ensures { result ≡ length_field bytes.now }
{
    little_of(byte(bytes, 0), byte(bytes, 1))
}

fn kind_field(bytes: &[u8]) -> usize
    ensures { result ≡ kind_field bytes.now }
{
    little_of(byte(bytes, 2), byte(bytes, 3))
}

// Whether the record at the front has a length from `least` to `most`, and is not cut short.
fn whole(bytes: &[u8], least: usize, most: usize) -> bool
    ensures { result ≡ whole_b least most bytes.now }
{
    let length = length_field(bytes);
    (least..=most).contains(&length) && length <= bytes.len()
}

// Whether more bytes behind these can't change what the record at the front is.
pub fn enough(bytes: &[u8]) -> bool
    ensures { result ≡ enough_b bytes.now }
{
    let length = length_field(bytes);
    HEADER_BYTES <= bytes.len() && (length <= bytes.len() || RECORD_BYTES < length)
}

fn if_whole(bytes: &[u8], least: usize, most: usize, told: Option<Record>) -> Option<Record>
    ensures { result ≡ if_whole least most bytes.now told }
{
    if whole(bytes, least, most) {
        told
    } else {
        None
    }
}

fn insertion(number: u8, protection: u8) -> Option<Record>
    ensures { result ≡ insert_record number protection }
{
    (protection <= 1).then_some(Record::Insert(number, protection == 1))
}

fn pull(low: u8, high: u8) -> Option<Record>
    ensures { result ≡ pull_record low high }
{
    let count = little_of(low, high);
    (count <= PIECE_BYTES).then_some(Record::Pull(count))
}

// The record at the front of a script, if it is not bad.
#[tactic(auto, unfolding(crate::specs::Records::record_of, crate::specs::Records::script_rows))]
pub fn first_record(bytes: &[u8]) -> Option<Record>
    ensures { result ≡ record_of bytes.now }
{
    match kind_field(bytes) {
        INSERT => if_whole(
            bytes,
            INSERT_BYTES,
            INSERT_BYTES,
            insertion(byte(bytes, 4), byte(bytes, 5)),
        ),
        EJECT => if_whole(bytes, EJECT_BYTES, EJECT_BYTES, Some(Record::Eject)),
        COMMAND => if_whole(bytes, COMMAND_BYTES, COMMAND_BYTES, Some(Record::Command)),
        FEED => {
            // how many bytes follow the header
            let piece = length_field(bytes).saturating_sub(HEADER_BYTES);
            if_whole(bytes, HEADER_BYTES, RECORD_BYTES, Some(Record::Feed(piece)))
        }
        PULL => if_whole(
            bytes,
            PULL_BYTES,
            PULL_BYTES,
            pull(byte(bytes, 4), byte(bytes, 5)),
        ),
        _ => None,
    }
}
