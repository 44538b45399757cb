// What is played of a record.
ghost use Rattle.std.specs.Prelude.{◌≡◌};
ghost use Rattle.ground.specs.Bytes.{zeros};
ghost use Rattle.house.specs.World.{world};
ghost use Rattle.record.specs.Records.{record_of};
ghost use Rattle.player.specs.Playing.{seen_of, outcome_of, spoken, said_of};

use crate::Outcome;
use drive::{Moved, Obeyed, Refusal};
use record::{COMMAND_BYTES, HEADER_BYTES, Record};
use state::State;

// How many of the disc's bytes the drive sees.
#[tactic(auto, unfolding(crate::specs::Playing::seen_of))]
fn seen(number: u8, disc: usize) -> usize
    ensures { result ≡ seen_of number disc }
{
    if number == 0 { 0 } else { disc }
}

// A command moves no bytes.
fn unmoved(obeyed: Obeyed) -> Moved
    ensures { result ≡ record { count = 0; state = obeyed.state } }
{
    Moved {
        count: 0,
        state: obeyed.state,
    }
}

// What a call came to; its bytes are to be printed if it shows them.
fn moved(state: State, reply: Result<Moved, Refusal>, shows: bool) -> Outcome
    ensures { result ≡ outcome_of state reply shows }
{
    let house = drive::number_of(&reply);
    let Moved { count, state } = reply.unwrap_or(Moved { count: 0, state });
    Outcome {
        house,
        count,
        shown: if shows { count } else { 0 },
        state,
    }
}

// The record at the front of a script, none where it is bad; `out` is for a pull.
#[tactic(auto, using(crate::proofs::Lending::command_there, crate::proofs::Lending::feed_there, crate::proofs::Lending::pull_few, std::proofs::lemmas::Bool::Decides::nat_tests), unfolding(crate::specs::Playing::seen_of, crate::specs::Playing::called_of, crate::specs::Playing::pull_said, drive::specs::Calls::call_of))]
pub(crate) fn play(
    state: State,
    script: &[u8],
    buffer: &mut [u8],
    disc: &mut [u8],
    out: &mut [u8],
) -> Option<Outcome>
    requires { out.old ≡ zeros 512 }
    ensures { spoken state result out.new buffer.new disc.new
        ≡ said_of (world state buffer.old disc.old) script.now (record_of script.now) }
{
    let told = record::first_record(script)?;
    let bytes = seen(state.media.disc, disc.len());
    Some(match told {
        Record::Insert(number, protected) => {
            let reply = drive::insert(state, number, protected, disc);
            moved(state, reply.map(|state| Moved { count: 0, state }), false)
        }
        Record::Eject => {
            let reply = drive::eject(state);
            moved(state, reply.map(|state| Moved { count: 0, state }), false)
        }
        Record::Command => {
            let packet = &script[HEADER_BYTES..COMMAND_BYTES];
            let reply = drive::command(state, packet, buffer, &disc[..bytes]);
            moved(state, reply.map(unmoved), false)
        }
        Record::Feed(n) => {
            let piece = &script[HEADER_BYTES..HEADER_BYTES + n];
            let reply = drive::feed(state, piece, buffer, &mut disc[..bytes]);
            moved(state, reply, false)
        }
        Record::Pull(n) => {
            let reply = drive::pull(state, &mut out[..n], buffer, &disc[..bytes]);
            moved(state, reply, true)
        }
    })
}
