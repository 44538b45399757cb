// A test of late records: an ejection with no disc in, played under numbers that count on past 4,294,967,295.
#![tactic(auto)]

use shell::Voice;
use std::process::ExitCode;

fn play(voice: &mut Voice, number: u64) -> bool {
    let mut buffer = [0u8; disc::BUFFER_BYTES];
    let mut disc = [0u8; player::DISC_BYTES];
    let mut line = [0u8; player::LINE_BYTES];
    let script = [4, 0, 2, 0];
    let step = player::step(
        drive::power_on(),
        number,
        &script,
        true,
        &mut buffer,
        &mut disc,
        &mut line,
    );
    let length = step.map_or(0, |step| step.length);
    voice.print(&line[..length.min(player::LINE_BYTES)])
}

fn run(voice: &mut Voice) {
    if !voice.is_alone(b"late_test: usage: late_test\n") {
        return;
    }
    if play(voice, 4294967295)
        && play(voice, 4294967296)
        && play(voice, 9999999999999999999)
        && play(voice, 10000000000000000000)
        && play(voice, 18446744073709551615)
    {
        voice.end(shell::AS_HOPED);
    }
}

fn main(rt: HostRuntime) -> ExitCode {
    let mut voice = Voice::new(rt, b"late_test");
    run(&mut voice);
    voice.exit_code()
}
