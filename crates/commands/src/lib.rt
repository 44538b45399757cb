// The events and the commands, each with its house refusals.
#![tactic(auto)]

ghost use Rattle.std.specs.Prelude.{◌≡◌};
ghost use Rattle.ground.specs.Kit.{length};
ghost use Rattle.state.specs.Senses.{no_sense};
ghost use Rattle.state.specs.States.{power_on, obeyed_of};
ghost use Rattle.house.specs.World.{World, in_state, in_buffer, in_lent};
ghost use Rattle.commands.specs.Events.{happened, event_of, insert_of, eject_of};
ghost use Rattle.commands.specs.Obeying.{span_of, performed_of, commanded, command_of};

use disc::BlockAddress;
use house::Refusal;
use packet::{Routine, Rule};
use state::{AnswerAt, DiscAt, ListAt, State, Transfer};

// What an accepted command answers: whether it passed, and the state after.
#[derive(Clone, Copy)]
pub struct Obeyed {
    pub passed: bool,
    pub state: State,
}

pub fn power_on() -> State
    ensures { result ≡ power_on }
{
    state::power_on()
}

#[tactic(auto, unfolding(crate::specs::Events::insert_of), using(crate::proofs::Judging::event_refused))]
pub fn insert(state: State, number: u8, protected: bool, disc: &[u8]) -> Result<State, Refusal>
    ensures { happened state result ≡ insert_of state number protected (length disc.now) }
{
    house::insert_house(state, number, disc.len())?;
    Ok(state::inserted(state, number, protected))
}

#[tactic(auto, unfolding(crate::specs::Events::eject_of), using(crate::proofs::Judging::event_refused))]
pub fn eject(state: State) -> Result<State, Refusal>
    ensures { happened state result ≡ eject_of state }
{
    house::eject_house(state)?;
    Ok(state::ejected(state))
}

// The bytes of so many blocks from an address.
#[tactic(auto, unfolding(crate::specs::Obeying::span_of))]
fn span(number: u8, from: BlockAddress, blocks: u32) -> DiscAt
    ensures { result ≡ span_of number from blocks }
{
    DiscAt {
        at: disc::place_of(number, from),
        left: disc::run_bytes(number, blocks),
    }
}

// A command that passes leaves no sense.
fn passed(state: State, motor: bool, transfer: Transfer) -> State
    ensures { result ≡ obeyed_of state no_sense motor transfer }
{
    state::obeyed(state, state::NO_SENSE, motor, transfer)
}

// What a command that has passed does; it is lent the block buffer alone, so that it leaves all else.
#[tactic(auto, unfolding(crate::specs::Obeying::performed_of))]
fn performed(state: State, rule: Rule, packet: &[u8], buffer: &mut [u8]) -> State
    ensures { (w : World) → in_buffer (in_state w result) buffer.new
        ≡ performed_of rule (in_buffer (in_state w state) buffer.old) packet.now }
{
    let length = packet::length(rule.length, packet);
    let blocks = span(state.media.disc, packet::address(packet), length);
    match rule.routine {
        Routine::Nothing => passed(state, state.motor, Transfer::Closed),
        Routine::Motor => passed(state, ground::byte(packet, 4) % 2 == 1, Transfer::Closed),
        Routine::Answer(answering) => {
            let sense = state.host.sense;
            let left = answer::give(
                answering,
                state.media,
                sense,
                packet,
                length as usize,
                buffer,
            );
            passed(
                state,
                state.motor,
                Transfer::Answer(AnswerAt { at: 0, left }),
            )
        }
        Routine::Read => passed(state, state.motor, Transfer::Read(blocks)),
        Routine::Write => passed(state, state.motor, Transfer::Write(blocks)),
        Routine::ParameterList => {
            let list = ListAt {
                track: ground::byte(packet, 2),
                left: state::LIST_BYTES,
            };
            passed(state, state.motor, Transfer::ParameterList(list))
        }
    }
}

#[tactic(auto, unfolding(crate::specs::Obeying::command_of), using(crate::proofs::Judging::command_refused))]
pub fn command(
    state: State,
    packet: &[u8],
    buffer: &mut [u8],
    disc: &[u8],
) -> Result<Obeyed, Refusal>
    ensures { (w : World) → commanded result (in_state (in_lent w buffer.new disc.now) state)
        ≡ command_of (in_state (in_lent w buffer.old disc.now) state) packet.now }
{
    house::command_house(state, packet.len(), buffer.len(), disc.len())?;
    match checks::judge(state.media, state.host, packet) {
        Err(sense) => Ok(Obeyed {
            passed: false,
            state: state::obeyed(state, sense, state.motor, Transfer::Closed),
        }),
        Ok(rule) => Ok(Obeyed {
            passed: true,
            state: performed(state, rule, packet, buffer),
        }),
    }
}
