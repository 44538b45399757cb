// Whether a packet may pass: the checks A to H.
#![tactic(auto)]

ghost use Rattle.std.specs.Prelude.{◌≡◌, cond, Ok, Err};
ghost use Rattle.checks.specs.Verdicts.{other_unit_b, in_mask_b, bad_format_b, bad_value_b, bad_control_b, past_end_b, first_of, checks_of, verdict};

use disc::BlockAddress;
use ground::byte;
use packet::{Field, Rule, Values};
use state::{Host, Media, Sense};

// B fails: the unit number is not 0.
fn other_unit(packet: &[u8]) -> bool
    ensures { result ≡ other_unit_b packet.now }
{
    byte(packet, 1) / 32 != 0
}

// E holds: no bit is set outside the mask.
#[tactic(auto, unfolding(crate::specs::Verdicts::in_mask_b))]
fn in_mask(packet: &[u8], row: usize) -> bool
    ensures { result ≡ in_mask_b packet.now row }
{
    disc::mask_row(row)
        .iter()
        .zip(packet)
        .all(|(mask, b)| b & mask == *b)
}

// F of FORMAT UNIT fails: byte 1 asks for another format, the list isn't of 12 bytes, or the disc has no such track.
fn bad_format(number: u8, packet: &[u8]) -> bool
    ensures { result ≡ bad_format_b number packet.now }
{
    byte(packet, 1) % 32 != 0x17
        || packet::length(Field::Bytes7To8, packet) as usize != state::LIST_BYTES
        || disc::format_of(number).cylinders <= u16::from(byte(packet, 2))
}

// F fails: a bit that has to be zero is set, there is no such page, or a field of FORMAT UNIT is wrong.
fn bad_value(number: u8, values: Values, packet: &[u8]) -> bool
    ensures { result ≡ bad_value_b number values packet.now }
{
    match values {
        Values::Any => false,
        Values::ZeroBits(bits) => byte(packet, 4) & bits != 0,
        Values::Page => !matches!(byte(packet, 2) % 64, 0x05 | 0x3f),
        Values::FormatUnit => bad_format(number, packet),
    }
}

// F2 fails: the saved values are asked for.
fn bad_control(values: Values, packet: &[u8]) -> bool
    ensures { result ≡ bad_control_b values packet.now }
{
    matches!(values, Values::Page) && byte(packet, 2) / 64 == 3
}

// G fails: the address is past the last block, or address plus length, added in 64 bits as 32 would wrap, past the block count.
fn past_end(number: u8, from: BlockAddress, count: u32) -> bool
    ensures { result ≡ past_end_b number from count }
{
    let blocks = u64::from(disc::format_of(number).blocks);
    let first = u64::from(from.0);
    blocks <= first || blocks < first + u64::from(count)
}

// A check that fails gives its triple.
fn check(fails: bool, sense: Sense) -> Result<(), Sense>
    ensures { result ≡ cond fails (Err sense) (Ok tt) }
{
    if fails { Err(sense) } else { Ok(()) }
}

// The checks B to H of a base command, in order: the first to fail gives the sense.
#[tactic(auto, unfolding(crate::specs::Verdicts::checks_of))]
fn checked(media: Media, host: Host, rule: Rule, packet: &[u8]) -> Result<Rule, Sense>
    ensures { result ≡ first_of (checks_of media host rule packet.now) rule }
{
    let asked = rule.asked;
    let past = past_end(
        media.disc,
        packet::address(packet),
        packet::length(rule.length, packet),
    );
    check(asked.unit && other_unit(packet), state::OTHER_UNIT)?;
    check(asked.attention && host.power, state::POWER_ON)?;
    check(asked.attention && host.change, state::CHANGE)?;
    check(asked.disc && media.disc == 0, state::NO_DISC)?;
    check(!in_mask(packet, rule.row), state::BAD_FIELD)?;
    check(bad_value(media.disc, rule.values, packet), state::BAD_FIELD)?;
    check(bad_control(rule.values, packet), state::NOT_SAVED)?;
    check(asked.range && past, state::OUT_OF_RANGE)?;
    check(asked.unprotected && media.protected, state::PROTECTED)?;
    Ok(rule)
}

// The rule by which a packet passes the checks A to H, or the sense of the first that fails.
#[tactic(auto, unfolding(crate::specs::Verdicts::verdict))]
pub fn judge(media: Media, host: Host, packet: &[u8]) -> Result<Rule, Sense>
    ensures { result ≡ verdict media host packet.now }
{
    let rule = packet::rule_of(packet).ok_or(state::UNKNOWN_CODE)?;
    checked(media, host, rule, packet)
}
