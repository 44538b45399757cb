// Compares two images of a disc, and lists the blocks that differ.
#![tactic(auto)]

ghost use Rattle.std.specs.Prelude.{◌≡◌, ◌+◌, ◌^◌, ◌<◌, ◌≤◌};
ghost use Rattle.ground.specs.Kit.{false, cond, eqb, length};
ghost use Rattle.window.specs.Filling.{missing};

use disc::BytePlace;
use shell::Voice;
use std::fs::File;
use std::io;
use std::io::{Read as _, Seek, SeekFrom};
use std::process::ExitCode;
use text::Line;
use window::Window;

// So much of each image is in memory at a time: half of the smallest disc.
const ROOM_BYTES: usize = 16384;

// Room for the lines of the 32 blocks of such a part.
const TEXT_BYTES: usize = 2880;

// An image that is open for reading. The room for a part of it stands beside: a method that changes the image can't be lent its room, too.
#[derive(Drop)]
struct Image<'a> {
    file: File,
    length: usize,
    name: &'a [u8],
}

impl Image<'_> {
    fn read_at(&mut self, place: usize, room: &mut [u8]) -> io::Result<usize> {
        self.file.seek(SeekFrom::Start(place as u64))?;
        self.file.read(room)
    }

    // One read behind the bytes that have come: where it fails the bytes end there, and why is told beside.
    fn read_on(
        &mut self,
        place: BytePlace,
        window: Window,
        room: &mut [u8],
    ) -> (Window, Option<io::Error>)
        requires room_bound { place.0 + length room.old ≤ 2 ^ 62 }
        requires upto_in_bounds { window.upto < length room.old }
        requires ended_value { window.ended ≡ false }
        ensures upto_in_bounds_2 { result.0.upto ≤ length room.new }
        ensures room_bound_2 { missing result.0 (length room.new) < missing window (length room.old) }
    {
        let read = self.read_at(place.0 + window.upto, &mut room[window.upto..]);
        let next = window::came(window, read.as_ref().ok().copied(), room);
        (next, read.err())
    }

    // The room is filled with the bytes from a place on, or the file is too short for that.
    fn fill(&mut self, place: BytePlace, room: &mut [u8]) -> io::Result<bool>
        requires { place.0 + length room.old ≤ 2 ^ 62 }
    {
        let mut window = window::opened();
        let mut failed = None;
        while !window.ended & (window.upto < room.len()) {
            (window, failed) = self.read_on(place, window, room);
        }
        match failed {
            Some(error) => Err(error),
            None => Ok(window.upto == room.len()),
        }
    }

    // The first n bytes of the room are filled, or what is wrong has been said.
    fn fill_first(&mut self, n: usize, voice: &mut Voice, place: BytePlace, room: &mut [u8]) -> bool
        requires n_bound { place.0 + n ≤ 2 ^ 62 }
        requires n_in_bounds { n ≤ length room.old }
    {
        match self.fill(place, &mut room[..n]) {
            Ok(true) => return true,
            Ok(false) => voice.trouble_for(self.name, b": became shorter while it was read\n"),
            Err(error) => voice.trouble_with(self.name, error),
        }
        false
    }
}

// A file, and how long it is, where the system says it. A device has an end, too.
fn opened(rt: HostRuntime, name: &[u8]) -> io::Result<Image> {
    let mut file = shell::open_file(rt, name)?;
    let length = file.seek(SeekFrom::End(0))? as usize;
    Ok(Image { file, length, name })
}

// The file that an argument names, if it is wanted; none where it can't be read, or has no length, which has been said.
fn open<'a>(voice: &mut Voice, wanted: bool, file: usize, name: &'a mut [u8]) -> Option<Image<'a>> {
    // tested here: a lifetime that begins on several ways, as at calls in two arms, has no generated proof
    if !wanted {
        return None;
    }
    match shell::given(voice.rt, file, name) {
        Ok(n) => {
            let name = &name[..n];
            match opened(voice.rt, name) {
                Ok(image) => return Some(image),
                Err(error) => voice.complain(name, error),
            }
        }
        Err(_) => voice.complain(b"the file's name", shell::too_long()),
    }
    None
}

// An image that was not asked for, or can't be read, has no byte.
fn bytes_of(image: &Option<Image>) -> usize {
    image.as_ref().map_or(0, |image| image.length)
}

// The disc that the third argument names.
fn disc_asked(rt: HostRuntime) -> Option<u8> {
    let mut room = [0; shell::NAME_BYTES];
    let n = shell::given(rt, 3, &mut room).ok()?;
    listing::disc_of(&room[..n])
}

fn status(total: usize) -> u8
    ensures { result ≡ cond (eqb total 0) 0 1 }
{
    if total == 0 {
        shell::AS_HOPED
    } else {
        shell::WANTING
    }
}

// What can't be read or printed ends the comparison, and has been said.
fn compare(voice: &mut Voice, number: u8, first: &mut Image, second: &mut Image) {
    let mut first_room = [0; ROOM_BYTES];
    let mut second_room = [0; ROOM_BYTES];
    let mut text = [0; TEXT_BYTES];
    let mut run = listing::start(number);
    while !run.over {
        let place = disc::place_of(number, run.block);
        let n = listing::due(number, run.block, ROOM_BYTES);
        if !first.fill_first(n, voice, place, &mut first_room) {
            return;
        }
        if !second.fill_first(n, voice, place, &mut second_room) {
            return;
        }
        let mut line = Line::new(&mut text);
        run = listing::turn(number, run, &first_room[..n], &second_room[..n], &mut line);
        if !voice.print(line.said()) {
            return;
        }
    }
    voice.end(status(run.total));
}

fn start(voice: &mut Voice) {
    if !shell::is_given(voice.rt, 3) | shell::is_given(voice.rt, 4) {
        voice.trouble(b"compare: usage: compare FIRST SECOND NUMBER\n");
        return;
    }
    let mut first_name = [0; shell::NAME_BYTES];
    let mut second_name = [0; shell::NAME_BYTES];
    let mut room = [0; 16];
    let number = disc_asked(voice.rt);
    let mut first = open(voice, number.is_some(), 1, &mut first_name);
    let whole = number.is_some_and(|number| bytes_of(&first) == disc::disc_bytes(number));
    let mut second = open(voice, whole, 2, &mut second_name);
    let mut line = Line::new(&mut room);
    listing::put_refusal(number, bytes_of(&first), bytes_of(&second), &mut line);
    match (number, &mut first, &mut second) {
        (Some(number), Some(first), Some(second)) if line.said().is_empty() => compare(
            voice, number, first, second,
        ),
        _ => {
            if voice.print(line.said()) {
                voice.end(shell::TROUBLE);
            }
        }
    }
}

fn main(rt: HostRuntime) -> ExitCode {
    let mut voice = Voice::new(rt, b"compare");
    start(&mut voice);
    voice.exit_code()
}
