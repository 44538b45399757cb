// Calls on buffers of which so many bytes are lent, each with its line behind the label.
use crate::entries::{Calls, Lent};
use crate::say;
use shell::Voice;
use state::State;

// A call's label, the state that it comes to, and how many bytes of each buffer it is lent.
#[derive(Clone, Copy)]
pub(crate) struct Case<'a> {
    pub(crate) label: &'a [u8],
    pub(crate) state: State,
    pub(crate) caller: usize,
    pub(crate) buffer: usize,
    pub(crate) disc: usize,
}

// What a caller of the drive keeps: its state, a block buffer with a byte more, and room for disc 3, the longest.
// Each function that has one is never inlined: several of them would take their room in one frame.
#[derive(Drop)]
pub(crate) struct Bench {
    pub(crate) state: State,
    // how many bytes of the room are the disc
    disc: usize,
    buffer: [u8; 1025],
    room: [u8; 1474560],
}

// What was lent is shown as the calls left it.
fn line(voice: &mut Voice, calls: Calls, state: State, lent: &mut Lent) -> State {
    say::text(voice, b":");
    let after = lent.called(voice, calls, state);
    say::rest(voice, after);
    say::bytes(voice, lent.caller);
    say::bytes(voice, lent.buffer);
    say::bytes(voice, lent.disc);
    say::text(voice, b"\n");
    after
}

// So many bytes of a buffer, or all there are.
pub(crate) fn start(bytes: &mut [u8], count: usize) -> &mut [u8] {
    let n = count.min(bytes.len());
    &mut bytes[..n]
}

impl Bench {
    // A disc of so many equal bytes.
    pub(crate) fn new(state: State, disc: usize, byte: u8) -> Bench {
        Bench {
            state,
            disc,
            buffer: [0xbb; 1025],
            room: [byte; 1474560],
        }
    }

    // All of the caller's buffer is lent, and so many bytes of the block buffer.
    pub(crate) fn call(
        &mut self,
        voice: &mut Voice,
        calls: Calls,
        caller: &mut [u8],
        buffer: usize,
    ) {
        let mut lent = Lent {
            caller,
            buffer: start(&mut self.buffer, buffer),
            disc: start(&mut self.room, self.disc),
        };
        self.state = line(voice, calls, self.state, &mut lent);
    }
}

// Calls on fresh buffers. The caller's is an INQUIRY where it is a packet.
#[inline(never)]
pub(crate) fn fresh(voice: &mut Voice, calls: Calls, case: Case) {
    let mut bench = Bench::new(case.state, case.disc, 0xd4);
    let mut packet = [0u8; 1024];
    packet[0] = 0x12;
    packet[4] = 0x24;
    say::text(voice, case.label);
    bench.call(voice, calls, start(&mut packet, case.caller), case.buffer);
}
