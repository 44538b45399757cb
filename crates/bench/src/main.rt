// Plays a script, and prints the line of each record as soon as it is played.
#![tactic(auto)]

ghost use Rattle.std.specs.Prelude.{◌≤◌};
ghost use Rattle.ground.specs.Kit.{length};

use shell::{Input, Voice};
use std::io;
use std::io::Read;
use std::process::ExitCode;
use turns::{Ahead, Run};

// As much as one read may bring.
const ROOM_BYTES: usize = 65536;

// The line goes out whole, or the run has to stop.
fn print(voice: &mut Voice, run: Run, line: &[u8]) -> bool {
    voice.print(&line[..run.length.min(line.len())])
}

// What can be read goes behind the unread bytes: where the read fails the run ends there, and why is told beside.
fn refill(run: Run, input: &mut Input, room: &mut [u8]) -> (Run, Option<io::Error>)
    requires { run.window.upto ≤ length room.old }
{
    let read = input.read(&mut room[run.window.upto..]);
    let next = turns::came(run, read.as_ref().ok().copied(), room);
    (next, read.err())
}

fn play(voice: &mut Voice, input: &mut Input, name: &[u8], explain: bool) {
    let mut room = [0u8; ROOM_BYTES];
    let mut buffer = [0u8; disc::BUFFER_BYTES];
    let mut disc = [0u8; player::DISC_BYTES];
    let mut line = [0u8; explain::LINE_BYTES];
    let mut run = turns::start();
    // a loop has to end, and nothing says that the input does: no run uses these turns up
    for _ in 0..u64::MAX {
        let played = turns::turn(run, explain, &mut room, &mut buffer, &mut disc, &mut line);
        if !print(voice, played, &line) {
            return;
        }
        match played.ahead {
            Ahead::Read => {
                let (next, failed) = refill(played, input, &mut room);
                if let Some(error) = failed {
                    voice.unreadable(input, name, error);
                    return;
                }
                run = next;
            }
            Ahead::Turn => run = played,
            Ahead::End => break,
            Ahead::Stop => {
                voice.end(shell::WANTING);
                return;
            }
        }
    }
    voice.end(shell::AS_HOPED);
}

fn start(voice: &mut Voice) {
    let options = shell::asked(voice.rt);
    if options.wrong | options.quiet {
        voice.trouble(b"bench: usage: bench [--explain] [FILE]\n");
        return;
    }
    let mut name = [0; shell::NAME_BYTES];
    if let Some(mut input) = shell::open(voice, options.file, &mut name) {
        play(voice, &mut input, &name, options.explain);
    }
}

fn main(rt: HostRuntime) -> ExitCode {
    let mut voice = Voice::new(rt, b"bench");
    start(&mut voice);
    voice.exit_code()
}
