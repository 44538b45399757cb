// The test that a state is sound.
#![tactic(auto)]

ghost use Rattle.std.specs.Prelude.{◌≡◌, ◌+◌};
ghost use Rattle.ground.specs.Kit.{leb};
ghost use Rattle.sound.specs.Soundness.{ends_on_block_b, on_disc_b, list_sound_b, open_sound_b, sound_b};

use state::{DiscAt, ListAt, Media, State, Transfer};

// `at + left <= limit`, with no sum that could wrap.
fn ends_within(at: usize, left: usize, limit: usize) -> bool
    ensures { result ≡ leb (at + left) limit }
{
    at.checked_add(left).is_some_and(|end| end <= limit)
}

// `at + left` is a multiple of the block length, with no sum that could wrap.
#[tactic(auto, using(crate::proofs::Ends::rests_add, crate::proofs::Ends::small_block), unfolding(crate::specs::Soundness::ends_on_block_b))]
fn ends_on_block(number: u8, p: DiscAt) -> bool
    ensures { result ≡ ends_on_block_b number p }
{
    let block = disc::block_bytes(number);
    block != 0 && (p.at.0 % block + p.left % block) % block == 0
}

#[tactic(auto, unfolding(crate::specs::Soundness::on_disc_b))]
fn on_disc(number: u8, p: DiscAt) -> bool
    ensures { result ≡ on_disc_b number p }
{
    number != 0 && 0 < p.left && ends_within(p.at.0, p.left, disc::disc_bytes(number))
}

// 1 to 12 bytes left of a list, for a track of an unprotected disc that is in.
#[tactic(auto, unfolding(crate::specs::Soundness::list_sound_b))]
fn list_soundly(media: Media, p: ListAt) -> bool
    ensures { result ≡ list_sound_b media p }
{
    0 < p.left
        && p.left <= state::LIST_BYTES
        && u16::from(p.track) < disc::format_of(media.disc).cylinders
        && !media.protected
        && media.disc != 0
}

#[tactic(auto, unfolding(crate::specs::Soundness::open_sound_b))]
fn open_soundly(media: Media, transfer: Transfer) -> bool
    ensures { result ≡ open_sound_b media transfer }
{
    match transfer {
        Transfer::Closed => true,
        Transfer::Answer(p) => 0 < p.left && ends_within(p.at, p.left, disc::BUFFER_BYTES),
        Transfer::Read(p) => on_disc(media.disc, p),
        Transfer::Write(p) => {
            on_disc(media.disc, p) && ends_on_block(media.disc, p) && !media.protected
        }
        Transfer::ParameterList(p) => list_soundly(media, p),
    }
}

#[tactic(auto, unfolding(crate::specs::Soundness::sound_b))]
pub fn sound(state: State) -> bool
    ensures { result ≡ sound_b state }
{
    let media = state.media;
    media.disc <= 4
        && (media.disc != 0 || !media.protected)
        && state::named(state.host.sense)
        && open_soundly(media, state.transfer)
}
