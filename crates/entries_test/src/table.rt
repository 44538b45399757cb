// The discs as the paper has them. The numbers are the test's own, since none may come from the code that it tests.
#[derive(Clone, Copy)]
pub(crate) struct Disc {
    pub(crate) number: u8,
    pub(crate) bytes: usize,
    pub(crate) blocks: u16,
    pub(crate) size: u16,
    // the blocks on a side of a track
    pub(crate) sectors: u8,
    pub(crate) last_track: u8,
}

pub(crate) const DISC_1: Disc = Disc {
    number: 1,
    bytes: 737280,
    blocks: 1440,
    size: 512,
    sectors: 9,
    last_track: 79,
};

pub(crate) const DISC_2: Disc = Disc {
    number: 2,
    bytes: 1261568,
    blocks: 1232,
    size: 1024,
    sectors: 8,
    last_track: 76,
};

pub(crate) const DISC_3: Disc = Disc {
    number: 3,
    bytes: 1474560,
    blocks: 2880,
    size: 512,
    sectors: 18,
    last_track: 79,
};

pub(crate) const DISC_4: Disc = Disc {
    number: 4,
    bytes: 32768,
    blocks: 64,
    size: 512,
    sectors: 8,
    last_track: 3,
};

// Of a number that is no disc's, none.
pub(crate) fn bytes(number: u8) -> usize {
    match number {
        1 => DISC_1.bytes,
        2 => DISC_2.bytes,
        3 => DISC_3.bytes,
        4 => DISC_4.bytes,
        _ => 0,
    }
}
