// What a line says, part by part: each part starts with a space, but for a plain text.
use shell::Voice;
use state::{Sense, State, Transfer};
use text::Line;

// The longest number that a line has.
const DIGITS: usize = 20;

// The first that can't be printed is the last that is heard of the test.
pub(crate) fn text(voice: &mut Voice, text: &[u8]) {
    if !voice.print(text) {
        voice.fall_silent();
    }
}

fn decimal(voice: &mut Voice, n: usize) {
    let mut digits = [0; DIGITS];
    let mut line = Line::new(&mut digits);
    line.put_decimal(n as u64);
    text(voice, line.said());
}

fn hex(voice: &mut Voice, b: u8) {
    let mut digits = [0; 3];
    let mut line = Line::new(&mut digits);
    line.put(b' ');
    line.put_hex(b);
    text(voice, line.said());
}

pub(crate) fn count(voice: &mut Voice, n: usize) {
    text(voice, b" ");
    decimal(voice, n);
}

// With it a section's title begins.
pub(crate) fn title(voice: &mut Voice, disc: u8) {
    text(voice, b"= disc");
    count(voice, usize::from(disc));
}

// The house number.
pub(crate) fn house(voice: &mut Voice, number: u8) {
    count(voice, usize::from(number));
}

pub(crate) fn sense(voice: &mut Voice, sense: Sense) {
    hex(voice, sense.0);
    hex(voice, sense.1);
    hex(voice, sense.2);
}

pub(crate) fn flag(voice: &mut Voice, set: bool, name: &[u8]) {
    if set {
        text(voice, name);
    }
}

// An open transfer by its name, its place (a list has its track) and the bytes that are left.
fn span(voice: &mut Voice, name: &[u8], at: usize, left: usize) {
    text(voice, name);
    decimal(voice, at);
    text(voice, b"+");
    decimal(voice, left);
}

fn transfer(voice: &mut Voice, transfer: Transfer) {
    match transfer {
        Transfer::Closed => {}
        Transfer::Answer(p) => span(voice, b" answer ", p.at, p.left),
        Transfer::Read(p) => span(voice, b" read ", p.at.0, p.left),
        Transfer::Write(p) => span(voice, b" write ", p.at.0, p.left),
        Transfer::ParameterList(p) => span(voice, b" list ", usize::from(p.track), p.left),
    }
}

// The state without its triple: the disc, the flags that are set, and what is open.
pub(crate) fn rest(voice: &mut Voice, state: State) {
    text(voice, b" | disc");
    count(voice, usize::from(state.media.disc));
    flag(voice, state.media.protected, b" protected");
    flag(voice, state.motor, b" motor");
    flag(voice, state.host.power, b" power");
    flag(voice, state.host.change, b" change");
    transfer(voice, state.transfer);
}

// Equal bytes: the byte, with a count where it stands more than once.
fn run(voice: &mut Voice, equal: &[u8]) {
    if let Some(b) = equal.first() {
        hex(voice, *b);
        if 1 < equal.len() {
            text(voice, b"*");
            decimal(voice, equal.len());
        }
    }
}

// All bytes of a buffer, behind a bar.
pub(crate) fn bytes(voice: &mut Voice, bytes: &[u8]) {
    text(voice, b" |");
    for equal in bytes.chunk_by(|a, b| a == b) {
        run(voice, equal);
    }
}
