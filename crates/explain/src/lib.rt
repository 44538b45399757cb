// What a line of the player means, in words behind it.
#![tactic(auto)]

mod words;

ghost use Rattle.std.specs.Prelude.{◌≡◌, ◌-◌};
ghost use Rattle.text.specs.Ink.{ink, inked, put_all, put_on};
ghost use Rattle.record.specs.Records.{record_of};
ghost use Rattle.explain.specs.Explaining.{refused_text, insertion_text, ejection_text, blocks_text, range_text, base_text, called_text, ended_text, command_text, move_text, fed_text, meaning_of, explained_text};

use disc::BlockAddress;
use packet::Rule;
use record::{COMMAND_BYTES, HEADER_BYTES, Record};
use state::{BAD_LIST, NO_SENSE, Sense};
use text::Line;

// Long enough for every line of the player with its words.
pub const LINE_BYTES: usize = 1300;

// What came of a call, as its line says it: the house number, the sense that it left, how many bytes were moved.
#[derive(Clone, Copy)]
struct Outcome {
    house: u8,
    sense: Sense,
    count: usize,
}

#[tactic(auto, using(text::proofs::Putting::put_behind))]
fn put_refused(line: &mut Line, house: u8)
    ensures { inked line.new ≡ put_on (inked line.old) (refused_text house) }
{
    line.put_all(b" refused, ");
    words::put_reason(line, house);
}

#[tactic(auto, using(text::proofs::Putting::put_behind), unfolding(crate::specs::Explaining::insertion_text))]
fn put_insertion(line: &mut Line, house: u8, number: u8, protected: bool)
    ensures { inked line.new ≡ put_on (inked line.old) (insertion_text house number protected) }
{
    line.put_all(b"disc ");
    line.put_decimal(u64::from(number));
    if house != 0 {
        put_refused(line, house);
    } else if protected {
        line.put_all(b" put in, protected");
    } else {
        line.put_all(b" put in");
    }
}

#[tactic(auto, using(text::proofs::Putting::put_behind), unfolding(crate::specs::Explaining::ejection_text))]
fn put_ejection(line: &mut Line, house: u8)
    ensures { inked line.new ≡ put_on (inked line.old) (ejection_text house) }
{
    if house != 0 {
        line.put_all(b"ejection");
        put_refused(line, house);
    } else {
        line.put_all(b"disc taken out");
    }
}

fn put_blocks(line: &mut Line, count: u32)
    ensures { inked line.new ≡ put_on (inked line.old) (blocks_text count) }
{
    if count == 1 {
        line.put_all(b" block from ");
    } else {
        line.put_all(b" blocks from ");
    }
}

// The blocks of a command; one of no blocks has an address alone.
#[tactic(auto, using(text::proofs::Putting::put_behind), unfolding(crate::specs::Explaining::range_text))]
fn put_range(line: &mut Line, from: BlockAddress, count: u32)
    ensures { inked line.new ≡ put_on (inked line.old) (range_text from count) }
{
    if count == 0 {
        line.put_all(b" at ");
        line.put_decimal(u64::from(from.0));
    } else {
        line.put_all(b" of ");
        line.put_decimal(u64::from(count));
        put_blocks(line, count);
        line.put_decimal(u64::from(from.0));
    }
}

// A base command: its name, and the blocks of one that asks check G.
#[tactic(auto, using(text::proofs::Putting::put_behind), unfolding(crate::specs::Explaining::base_text))]
fn put_base(line: &mut Line, packet: &[u8], rule: Rule)
    ensures { inked line.new ≡ put_on (inked line.old) (base_text rule packet.now) }
{
    words::put_name(line, ground::byte(packet, 0));
    if rule.asked.range {
        put_range(
            line,
            packet::address(packet),
            packet::length(rule.length, packet),
        );
    }
}

#[tactic(auto, unfolding(crate::specs::Explaining::called_text))]
fn put_called(line: &mut Line, packet: &[u8])
    ensures { inked line.new ≡ put_on (inked line.old) (called_text packet.now) }
{
    match packet::rule_of(packet) {
        Some(rule) => put_base(line, packet, rule),
        None => words::put_code(line, ground::byte(packet, 0)),
    }
}

#[tactic(auto, using(text::proofs::Putting::put_behind), unfolding(crate::specs::Explaining::ended_text))]
fn put_ended(line: &mut Line, outcome: Outcome)
    ensures { inked line.new ≡ put_on (inked line.old) (ended_text outcome.house outcome.sense) }
{
    if outcome.house != 0 {
        put_refused(line, outcome.house);
    } else if outcome.sense == NO_SENSE {
        line.put_all(b" passed");
    } else {
        line.put_all(b" failed, ");
        words::put_why(line, outcome.sense);
    }
}

#[tactic(auto, using(text::proofs::Putting::put_behind), unfolding(crate::specs::Explaining::command_text))]
fn put_command(line: &mut Line, packet: &[u8], outcome: Outcome)
    ensures { inked line.new ≡ put_on (inked line.old) (command_text packet.now outcome.house outcome.sense) }
{
    put_called(line, packet);
    put_ended(line, outcome);
}

// A feed or a pull, as it is called, and what was done with how many of its bytes.
#[tactic(auto, using(text::proofs::Putting::put_behind), unfolding(crate::specs::Explaining::move_text))]
fn put_move(line: &mut Line, called: &[u8], moved: &[u8], outcome: Outcome, bytes: usize)
    ensures { inked line.new ≡ put_on (inked line.old) (move_text called.now moved.now outcome.house outcome.count bytes) }
{
    if outcome.house != 0 {
        line.put_all(called);
        put_refused(line, outcome.house);
    } else {
        line.put_decimal(outcome.count as u64);
        line.put_all(b" of ");
        line.put_decimal(bytes as u64);
        line.put_all(moved);
    }
}

// A feed; of one whose parameter list was refused that is said, too.
#[tactic(auto, using(text::proofs::Putting::put_behind), unfolding(crate::specs::Explaining::fed_text))]
fn put_fed(line: &mut Line, outcome: Outcome, bytes: usize)
    ensures { inked line.new ≡ put_on (inked line.old) (fed_text outcome.house outcome.sense outcome.count bytes) }
{
    put_move(line, b"feed", b" bytes taken", outcome, bytes);
    if outcome.count != 0 && outcome.sense == BAD_LIST {
        line.put_all(b", ");
        words::put_why(line, outcome.sense);
    }
}

#[tactic(auto, using(text::proofs::Putting::put_behind, crate::proofs::Packets::command_fits), unfolding(crate::specs::Explaining::bad_text))]
fn put_meaning(line: &mut Line, bytes: &[u8], outcome: Outcome)
    ensures { inked line.new
        ≡ put_on (inked line.old) (meaning_of bytes.now outcome.house outcome.sense outcome.count (record_of bytes.now)) }
{
    match record::first_record(bytes) {
        Some(Record::Insert(number, protected)) => {
            put_insertion(line, outcome.house, number, protected);
        }
        Some(Record::Eject) => put_ejection(line, outcome.house),
        Some(Record::Command) => {
            put_command(line, &bytes[HEADER_BYTES..COMMAND_BYTES], outcome);
        }
        Some(Record::Feed(n)) => put_fed(line, outcome, n),
        Some(Record::Pull(n)) => put_move(line, b"pull", b" bytes given", outcome, n),
        None => line.put_all(
            b"cut short, or of another kind or length, or a protection above 1, or a pull above 512",
        ),
    }
}

// Goes on behind a line of `length` bytes, in the place of its line feed; `bytes` begin with the record, and the rest is as the line says it.
// The line stays bytes with a length, and house, sense and count apart: `OneText` speaks of lent bytes, and every number has its words.
#[tactic(auto, using(text::proofs::Putting::put_behind), unfolding(crate::specs::Explaining::explained_text))]
pub fn put_explained(
    line: &mut [u8],
    length: usize,
    bytes: &[u8],
    house: u8,
    sense: Sense,
    count: usize,
) -> usize
    ensures { ink result line.new
        ≡ put_all (ink (length - 1) line.old) (explained_text bytes.now house sense count) }
{
    let mut line = Line {
        bytes: line,
        at: length.saturating_sub(1),
    };
    line.put_all(b": ");
    put_meaning(
        &mut line,
        bytes,
        Outcome {
            house,
            sense,
            count,
        },
    );
    line.put(b'\n');
    line.at
}
