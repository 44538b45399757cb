// What no script can reach: discs 1 to 3, buffers of wrong lengths, and states that no run from power-on comes to.
//
// A line is a label, the house number, the triple and the count, and whether a command passed; then, behind bars, the rest of the state, the
// caller's buffer, the block buffer and the disc, each as the call left it. An open transfer is its place, a list its track, `+` the bytes
// left, and `xx*N` is a byte N times. In the section of unsound states such a state goes to all five entries, and has their five house
// numbers and no count.
#![tactic(auto)]

mod begun;
mod calls;
mod discs;
mod entries;
mod formats;
mod inside;
mod refusals;
mod say;
mod soundness;
mod states;
mod steps;
mod table;

use shell::Voice;
use std::process::ExitCode;
use table::{DISC_1, DISC_2, DISC_3};

fn run(voice: &mut Voice) {
    if !voice.is_alone(b"entries_test: usage: entries_test\n") {
        return;
    }
    for disc in [DISC_1, DISC_2, DISC_3] {
        discs::in_use(voice, disc);
    }
    formats::all(voice);
    refusals::all(voice);
    soundness::all(voice);
    inside::all(voice);
    begun::all(voice);
    voice.end(shell::AS_HOPED);
}

fn main(rt: HostRuntime) -> ExitCode {
    let mut voice = Voice::new(rt, b"entries_test");
    run(&mut voice);
    voice.exit_code()
}
