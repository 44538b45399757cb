// The words of an explanation, by the operation code, the triple and the house number.
ghost use Rattle.std.specs.Prelude.{◌≡◌};
ghost use Rattle.text.specs.Ink.{inked, put_on};
ghost use Rattle.explain.specs.Words.{name_text, code_text, sense_text, why_text, house_text, reason_text, row_text};

use state::Sense;
use text::Line;

// The names of the base commands, by their operation code.
const NAMES: [(u8, &[u8]); 17] = [
    (packet::TEST_UNIT_READY, b"TEST UNIT READY"),
    (packet::REZERO_UNIT, b"REZERO UNIT"),
    (packet::REQUEST_SENSE, b"REQUEST SENSE"),
    (packet::FORMAT_UNIT, b"FORMAT UNIT"),
    (packet::INQUIRY, b"INQUIRY"),
    (packet::START_STOP_UNIT, b"START STOP UNIT"),
    (packet::PREVENT_REMOVAL, b"PREVENT REMOVAL"),
    (packet::READ_FORMAT_CAPACITIES, b"READ FORMAT CAPACITIES"),
    (packet::READ_CAPACITY, b"READ CAPACITY"),
    (packet::READ_10, b"READ (10)"),
    (packet::WRITE_10, b"WRITE (10)"),
    (packet::SEEK, b"SEEK"),
    (packet::WRITE_AND_VERIFY, b"WRITE AND VERIFY"),
    (packet::VERIFY, b"VERIFY"),
    (packet::MODE_SENSE, b"MODE SENSE"),
    (packet::READ_12, b"READ (12)"),
    (packet::WRITE_12, b"WRITE (12)"),
];

// Why a command failed, or a list: the triples that the paper names differ in their additional code.
const WHYS: [(u8, &[u8]); 10] = [
    (state::UNKNOWN_CODE.1, b"not one of the seventeen codes"),
    (state::OTHER_UNIT.1, b"unit number not 0"),
    (state::POWER_ON.1, b"power-on reported"),
    (state::CHANGE.1, b"change of disc reported"),
    (state::NO_DISC.1, b"no disc is in"),
    (state::BAD_FIELD.1, b"a bit or value that is not allowed"),
    (state::NOT_SAVED.1, b"saved values are not kept"),
    (state::OUT_OF_RANGE.1, b"past the last block"),
    (state::PROTECTED.1, b"the disc is protected"),
    (state::BAD_LIST.1, b"the parameter list is refused"),
];

// Why a call was refused, by its house number.
const REASONS: [(u8, &[u8]); 7] = [
    (1, b"the packet has not 12 bytes"),
    (2, b"the state is not sound"),
    (3, b"the block buffer has not 1,024 bytes"),
    (4, b"the lent disc has another length"),
    (5, b"a disc is in"),
    (6, b"no disc is in"),
    (7, b"no disc has that number"),
];

// The words of a key in a table; the chain by `find` has no proof that finds itself.
#[tactic(auto, unfolding(text::specs::Ink::put_all))]
fn put_row(line: &mut Line, rows: &[(u8, &[u8])], key: u8)
    ensures { inked line.new ≡ put_on (inked line.old) (row_text key rows.now) }
{
    for row in rows {
        if row.0 == key {
            line.put_all(row.1);
            return;
        }
    }
}

#[tactic(auto, unfolding(crate::specs::Words::name_text, crate::specs::Words::names))]
pub(crate) fn put_name(line: &mut Line, code: u8)
    ensures { inked line.new ≡ put_on (inked line.old) (name_text code) }
{
    put_row(line, &NAMES, code);
}

#[tactic(auto, using(text::proofs::Putting::put_behind))]
pub(crate) fn put_code(line: &mut Line, code: u8)
    ensures { inked line.new ≡ put_on (inked line.old) (code_text code) }
{
    line.put_all(b"code ");
    line.put_hex(code);
}

#[tactic(auto, using(text::proofs::Putting::put_behind), unfolding(crate::specs::Words::sense_text))]
fn put_sense(line: &mut Line, sense: Sense)
    ensures { inked line.new ≡ put_on (inked line.old) (sense_text sense) }
{
    line.put_all(b"sense ");
    line.put_hex(sense.0);
    line.put(b' ');
    line.put_hex(sense.1);
    line.put(b' ');
    line.put_hex(sense.2);
}

#[tactic(auto, unfolding(crate::specs::Words::why_text))]
pub(crate) fn put_why(line: &mut Line, sense: Sense)
    ensures { inked line.new ≡ put_on (inked line.old) (why_text sense) }
{
    if state::named(sense) {
        put_row(line, &WHYS, sense.1);
    } else {
        put_sense(line, sense);
    }
}

#[tactic(auto, using(text::proofs::Putting::put_behind))]
fn put_house(line: &mut Line, house: u8)
    ensures { inked line.new ≡ put_on (inked line.old) (house_text house) }
{
    line.put_all(b"house number ");
    line.put_decimal(u64::from(house));
}

#[tactic(auto, unfolding(crate::specs::Words::reason_text))]
pub(crate) fn put_reason(line: &mut Line, house: u8)
    ensures { inked line.new ≡ put_on (inked line.old) (reason_text house) }
{
    if 7 < house {
        put_house(line, house);
    } else {
        put_row(line, &REASONS, house);
    }
}
