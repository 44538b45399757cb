// What a feed and a pull answer.
#![tactic(auto)]

use state::State;

#[derive(Clone, Copy)]
pub struct Moved {
    pub count: usize,
    pub state: State,
}
