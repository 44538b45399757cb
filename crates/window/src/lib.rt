// The window on bytes that come a part at a time.
#![tactic(auto)]

ghost use Rattle.std.specs.Prelude.{◌≡◌, ◌++◌, ◌+◌, ◌≤◌};
ghost use Rattle.ground.specs.Kit.{length, take, drop};
ghost use Rattle.window.specs.Windows.{opened_of, used_of, within_of, held, to_front_of, due_of, settled_of, brought_of, came_of};

use ground::least;

// Of a lent room, the bytes from `from` up to `upto` have come and are not yet used.
#[derive(Clone, Copy)]
pub struct Window {
    pub from: usize,
    pub upto: usize,
    // no more bytes come
    pub ended: bool,
}

// Nothing has come.
pub fn opened() -> Window
    ensures { result ≡ opened_of }
{
    Window {
        from: 0,
        upto: 0,
        ended: false,
    }
}

// The first `count` of the unread bytes are used, or as many as there are.
pub fn used(window: Window, count: usize) -> Window
    ensures { result ≡ used_of window count }
{
    let unread = window.upto.saturating_sub(window.from);
    Window {
        from: window.from + least(count, unread),
        ..window
    }
}

// The same unread bytes, with both ends within the room.
pub fn within(window: Window, room: &[u8]) -> Window
    ensures { result ≡ within_of window room.now }
{
    let upto = least(window.upto, room.len());
    Window {
        from: least(window.from, upto),
        upto,
        ..window
    }
}

// So many bytes of the room go to its front.
fn advance(room: &mut [u8], from: usize, count: usize)
    requires { from + count ≤ length room.old }
    ensures { room.new ≡ take count (drop from room.old) ++ drop count room.old }
{
    room.copy_within(from..from + count, 0);
}

// The unread bytes go to the front of the room, the rest of the room stays.
pub fn to_front(window: Window, room: &mut [u8]) -> Window
    ensures { held result room.new ≡ to_front_of window room.old }
{
    let unread = within(window, room);
    let count = unread.upto - unread.from;
    advance(room, unread.from, count);
    Window {
        from: 0,
        upto: count,
        ..window
    }
}

// Where a record can't be told, and more may come, a read is due.
pub fn is_due(window: Window, waits: bool) -> bool
    ensures { result ≡ due_of window waits }
{
    waits & !window.ended
}

// Where a read is due, the unread bytes go to the front of the room.
pub fn settled(window: Window, due: bool, room: &mut [u8]) -> Window
    ensures { held result room.new ≡ settled_of window due room.old }
{
    if due { to_front(window, room) } else { window }
}

// How many bytes a read brought that had room for so many.
fn brought(read: Option<usize>, most: usize) -> usize
    ensures { result ≡ brought_of read most }
{
    read.map_or(0, |got| least(got, most))
}

// After a read into the room behind the unread bytes; a read that failed (`None`) brings nothing, and the bytes end there.
pub fn came(window: Window, read: Option<usize>, room: &[u8]) -> Window
    ensures { result ≡ came_of window read room.now }
{
    let most = room.len().saturating_sub(window.upto);
    Window {
        upto: window.upto + brought(read, most),
        ended: matches!(read, None | Some(0)),
        ..window
    }
}
