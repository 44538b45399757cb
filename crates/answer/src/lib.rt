// The five answers as bytes, and how one is put at the start of the block buffer.
#![tactic(auto)]

ghost use Rattle.std.specs.Prelude.{◌≡◌};
ghost use Rattle.answer.specs.Answers.{sense_data, inquiry_to, capacity_data, with_disc_data, without_disc_data, mode_data, capacities_data};
ghost use Rattle.ground.specs.Filling.{filled};
ghost use Rattle.answer.specs.Giving.{put_of, give_of};

use packet::Answering;
use state::{Media, Sense};

// 03
#[tactic(auto, unfolding(crate::specs::Answers::sense_data))]
pub fn sense_data(sense: Sense) -> [u8; 18]
    ensures { result ≡ sense_data sense }
{
    let Sense(key, code, qualifier) = sense;
    [
        0x70, 0, key, 0, 0, 0, 0, 0x0a, 0, 0, 0, 0, code, qualifier, 0, 0, 0, 0,
    ]
}

// 12; of a unit that isn't there the device type is 1F, none.
#[tactic(auto, unfolding(crate::specs::Answers::inquiry_data))]
pub fn inquiry_data(unit: u8) -> [u8; 36]
    ensures { result ≡ inquiry_to unit }
{
    let mut data = *b"\x00\x80\x00\x01\x1f\x00\x00\x00EPHEMERAELEMENT DISC    0100";
    if unit != 0 {
        data[0] = 0x1f;
    }
    data
}

// 25
#[tactic(auto, unfolding(crate::specs::Answers::capacity_data))]
pub fn capacity_data(number: u8) -> [u8; 8]
    ensures { result ≡ capacity_data number }
{
    let format = disc::format_of(number);
    let [l3, l2, l1, l0] = format.blocks.saturating_sub(1).to_be_bytes();
    let [s3, s2, s1, s0] = u32::from(format.size).to_be_bytes();
    [l3, l2, l1, l0, s3, s2, s1, s0]
}

// 23 with a disc: its own descriptor with code 2, then with code 0.
#[tactic(auto, unfolding(crate::specs::Answers::with_disc_data))]
pub fn with_disc_data(number: u8) -> [u8; 20]
    ensures { result ≡ with_disc_data number }
{
    let format = disc::format_of(number);
    let [b3, b2, b1, b0] = format.blocks.to_be_bytes();
    let [_, s2, s1, s0] = u32::from(format.size).to_be_bytes();
    [
        0, 0, 0, 16, b3, b2, b1, b0, 2, s2, s1, s0, b3, b2, b1, b0, 0, s2, s1, s0,
    ]
}

// 23 without: 2880 of 512 with code 3.
#[tactic(auto, unfolding(crate::specs::Answers::without_disc_data))]
pub fn without_disc_data() -> [u8; 12]
    ensures { result ≡ without_disc_data }
{
    [0, 0, 0, 8, 0, 0, 0x0b, 0x40, 3, 0, 0x02, 0x00]
}

// 5A; of the changeable values, page control 1, the page is zeros after its length.
#[tactic(auto, unfolding(crate::specs::Answers::mode_data))]
pub fn mode_data(number: u8, protected: bool, changeable: bool) -> [u8; 40]
    ensures { result ≡ mode_data number protected changeable }
{
    let format = disc::format_of(number);
    let mut data = [0; 40];
    data[1] = 0x26;
    data[2] = format.medium;
    data[3] = if protected { 0x80 } else { 0x00 };
    data[8] = 0x05;
    data[9] = 0x1e;
    if changeable {
        return data;
    }
    data[10..12].copy_from_slice(&format.rate.to_be_bytes());
    data[12] = 0x02;
    data[13] = format.sectors;
    data[14..16].copy_from_slice(&format.size.to_be_bytes());
    data[16..18].copy_from_slice(&format.cylinders.to_be_bytes());
    data[27] = 0x05;
    data[28] = 0x1e;
    data[36..38].copy_from_slice(&format.rpm.to_be_bytes());
    data
}

// The first min(allocation, full size) bytes of an answer go to the start of the buffer.
fn put(answer: &[u8], allocation: usize, buffer: &mut [u8]) -> usize
    ensures { filled result buffer.new ≡ put_of answer.now allocation buffer.old }
{
    ground::fill(&answer[..allocation.min(answer.len())], buffer)
}

#[tactic(auto, unfolding(crate::specs::Answers::capacities_data))]
fn put_capacities(number: u8, allocation: usize, buffer: &mut [u8]) -> usize
    ensures { filled result buffer.new ≡ put_of (capacities_data number) allocation buffer.old }
{
    if number == 0 {
        put(&without_disc_data(), allocation, buffer)
    } else {
        put(&with_disc_data(number), allocation, buffer)
    }
}

// An answer is put at the start of the buffer, as far as its allocation goes; the count says how far. The packet says what is asked for.
#[tactic(auto, unfolding(crate::specs::Giving::give_of, crate::specs::Giving::answer_of, crate::specs::Giving::allocation_of))]
pub fn give(
    answering: Answering,
    media: Media,
    sense: Sense,
    packet: &[u8],
    allocation: usize,
    buffer: &mut [u8],
) -> usize
    ensures { filled result buffer.new ≡ give_of answering media sense packet.now allocation buffer.old }
{
    match answering {
        Answering::Sense => put(&sense_data(sense), allocation, buffer),
        Answering::Inquiry => {
            let unit = ground::byte(packet, 1) / 32;
            put(&inquiry_data(unit), allocation, buffer)
        }
        Answering::FormatCapacities => put_capacities(media.disc, allocation, buffer),
        Answering::Capacity => put(&capacity_data(media.disc), 8, buffer),
        Answering::Mode => {
            let control = ground::byte(packet, 2) / 64;
            put(
                &mode_data(media.disc, media.protected, control == 1),
                allocation,
                buffer,
            )
        }
    }
}
