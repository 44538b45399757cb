// The box: its entries, and what they answer. An entry is answered whatever it is lent.
#![tactic(auto)]

pub use commands::{Obeyed, command, eject, insert, power_on};
pub use feeds::feed;
pub use house::{Refusal, number_of};
pub use moves::Moved;
pub use pulls::pull;
