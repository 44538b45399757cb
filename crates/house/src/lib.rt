// The house refusals: the tests of what is lent, in the paper's order.
#![tactic(auto)]

ghost use Rattle.std.specs.Prelude.{◌≡◌};
ghost use Rattle.house.specs.Refusals.{refusal_number, number_of, first_refusal, move_tests, command_tests, insert_tests, eject_tests};

use state::State;

#[derive(Clone, Copy, PartialEq, Eq)]
pub enum Refusal {
    PacketLength,
    Unsound,
    BufferLength,
    DiscLength,
    DiscIn,
    NoDiscIn,
    NoSuchDisc,
}

impl Refusal {
    // Its number in the paper's table.
    pub fn number(self) -> u8
        ensures { result ≡ refusal_number self }
    {
        number_of(&Err::<(), Refusal>(self))
    }
}

// The house number of a reply, 0 where the call is accepted; a match, for the paper has these numbers in a table.
pub fn number_of<T>(reply: &Result<T, Refusal>) -> u8
    ensures { result ≡ number_of reply.now }
{
    match reply {
        Ok(_) => 0,
        Err(Refusal::PacketLength) => 1,
        Err(Refusal::Unsound) => 2,
        Err(Refusal::BufferLength) => 3,
        Err(Refusal::DiscLength) => 4,
        Err(Refusal::DiscIn) => 5,
        Err(Refusal::NoDiscIn) => 6,
        Err(Refusal::NoSuchDisc) => 7,
    }
}

#[tactic(auto, unfolding(crate::specs::Refusals::insert_tests))]
pub fn insert_house(state: State, number: u8, disc: usize) -> Result<(), Refusal>
    ensures { number_of result ≡ first_refusal (insert_tests state number disc) }
{
    if !sound::sound(state) {
        return Err(Refusal::Unsound);
    }
    if state.media.disc != 0 {
        return Err(Refusal::DiscIn);
    }
    if (number == 0) | (4 < number) {
        return Err(Refusal::NoSuchDisc);
    }
    if disc != disc::disc_bytes(number) {
        return Err(Refusal::DiscLength);
    }
    Ok(())
}

#[tactic(auto, unfolding(crate::specs::Refusals::eject_tests))]
pub fn eject_house(state: State) -> Result<(), Refusal>
    ensures { number_of result ≡ first_refusal (eject_tests state) }
{
    if !sound::sound(state) {
        return Err(Refusal::Unsound);
    }
    if state.media.disc == 0 {
        return Err(Refusal::NoDiscIn);
    }
    Ok(())
}

// Of a state and of the lengths that are lent.
#[tactic(auto, unfolding(crate::specs::Refusals::move_tests))]
pub fn move_house(state: State, buffer: usize, disc: usize) -> Result<(), Refusal>
    ensures { number_of result ≡ first_refusal (move_tests state buffer disc) }
{
    if !sound::sound(state) {
        return Err(Refusal::Unsound);
    }
    if buffer != disc::BUFFER_BYTES {
        return Err(Refusal::BufferLength);
    }
    if disc != disc::disc_bytes(state.media.disc) {
        return Err(Refusal::DiscLength);
    }
    Ok(())
}

#[tactic(auto, unfolding(crate::specs::Refusals::command_tests, crate::specs::Refusals::move_tests))]
pub fn command_house(state: State, packet: usize, buffer: usize, disc: usize) -> Result<(), Refusal>
    ensures { number_of result ≡ first_refusal (command_tests state packet buffer disc) }
{
    if packet != 12 {
        return Err(Refusal::PacketLength);
    }
    move_house(state, buffer, disc)
}
