// The steps of a run: each call goes on where the one before it left state, block buffer and disc.
use crate::calls::{Bench, start};
use crate::entries::{Calls, Entry};
use crate::say;
use shell::Voice;
use state::Media;

pub(crate) const TEST_UNIT_READY: u8 = 0x00;

const FORMAT_UNIT: u8 = 0x04;

pub(crate) const READ_FORMAT_CAPACITIES: u8 = 0x23;

pub(crate) const READ_CAPACITY: u8 = 0x25;

pub(crate) const READ: u8 = 0x28;

pub(crate) const WRITE: u8 = 0x2a;

pub(crate) const MODE_SENSE: u8 = 0x5a;

// An entry, and the first bytes of the caller's buffer that it is lent.
#[derive(Clone, Copy)]
pub(crate) struct Step {
    entry: Entry,
    caller: [u8; 1024],
    count: usize,
}

// On a buffer of so many equal bytes.
fn filled(entry: Entry, byte: u8, count: usize) -> Step {
    Step {
        entry,
        caller: [byte; 1024],
        count,
    }
}

pub(crate) fn insert(disc: u8) -> Step {
    let protected = false;
    filled(Entry::Insert(Media { disc, protected }), 0, 0)
}

// A packet with byte 2, a block address in bytes 4 and 5, and a length in byte 8.
pub(crate) fn command(code: u8, page: u8, block: u16, length: u8) -> Step {
    let mut command = filled(Entry::Command, 0, 12);
    command.caller[0] = code;
    command.caller[2] = page;
    command.caller[4..6].copy_from_slice(&block.to_be_bytes());
    command.caller[8] = length;
    command
}

// A FORMAT UNIT, with its track in byte 2 and the length of its list in byte 8.
pub(crate) fn format(track: u8) -> Step {
    let mut format = command(FORMAT_UNIT, track, 0, 0x0c);
    format.caller[1] = 0x17;
    format
}

// A piece of so many bytes, of which the first 12 are three big-endian numbers: a list's header, blocks and block length.
pub(crate) fn piece(header: u32, blocks: u32, size: u32, count: usize) -> Step {
    let mut piece = feed(0xcc, count);
    piece.caller[..4].copy_from_slice(&header.to_be_bytes());
    piece.caller[4..8].copy_from_slice(&blocks.to_be_bytes());
    piece.caller[8..12].copy_from_slice(&size.to_be_bytes());
    piece
}

// A whole list, with a defect list length of 8.
pub(crate) fn list(flags: u8, blocks: u32, size: u32) -> Step {
    piece(u32::from_be_bytes([0, flags, 0, 8]), blocks, size, 12)
}

// A piece of so many equal bytes.
pub(crate) fn feed(byte: u8, count: usize) -> Step {
    filled(Entry::Feed, byte, count)
}

pub(crate) fn pull(count: usize) -> Step {
    filled(Entry::Pull, 0xee, count)
}

fn command_name(code: u8) -> &'static [u8] {
    match code {
        TEST_UNIT_READY => b"TEST UNIT READY",
        FORMAT_UNIT => b"FORMAT UNIT",
        READ_FORMAT_CAPACITIES => b"READ FORMAT CAPACITIES",
        READ_CAPACITY => b"READ CAPACITY",
        READ => b"READ",
        WRITE => b"WRITE",
        _ => b"MODE SENSE",
    }
}

fn name(entry: Entry, first: u8) -> &'static [u8] {
    match entry {
        Entry::Command => command_name(first),
        Entry::Feed => b"feed",
        Entry::Pull => b"pull",
        Entry::Insert(_) => b"insert",
        Entry::Eject => b"eject",
    }
}

impl Bench {
    pub(crate) fn play(&mut self, voice: &mut Voice, step: Step) {
        let mut caller = step.caller;
        say::text(voice, name(step.entry, caller[0]));
        let lent = start(&mut caller, step.count);
        self.call(voice, Calls::One(step.entry), lent, 1024);
    }
}
