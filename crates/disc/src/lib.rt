// The constant tables: the discs by number and, beside them, the masks of the base commands by row; and the two kinds of number.
#![tactic(auto)]

ghost use Rattle.std.specs.Prelude.{◌≡◌};
ghost use Rattle.disc.specs.Formats.{format_of, block_bytes, disc_bytes, run_bytes, place_of};
ghost use Rattle.disc.specs.Masks.{mask_row};

// Which block of a disc.
#[derive(Clone, Copy)]
pub struct BlockAddress(pub u32);

// Which byte of a disc.
#[derive(Clone, Copy)]
pub struct BytePlace(pub usize);

// The block buffer.
pub const BUFFER_BYTES: usize = 1024;

#[derive(Clone, Copy)]
pub struct Format {
    pub blocks: u32,
    pub size: u16,
    pub sectors: u8,
    pub cylinders: u16,
    pub rate: u16,
    pub rpm: u16,
    pub medium: u8,
}

const NO_DISC: Format = Format {
    blocks: 0,
    size: 0,
    sectors: 0,
    cylinders: 0,
    rate: 0,
    rpm: 0,
    medium: 0,
};

// By number.
const FORMATS: [Format; 5] = [
    NO_DISC,
    Format {
        blocks: 1440,
        size: 512,
        sectors: 9,
        cylinders: 80,
        rate: 250,
        rpm: 300,
        medium: 0x1e,
    },
    Format {
        blocks: 1232,
        size: 1024,
        sectors: 8,
        cylinders: 77,
        rate: 500,
        rpm: 360,
        medium: 0x93,
    },
    Format {
        blocks: 2880,
        size: 512,
        sectors: 18,
        cylinders: 80,
        rate: 500,
        rpm: 300,
        medium: 0x94,
    },
    Format {
        blocks: 64,
        size: 512,
        sectors: 8,
        cylinders: 4,
        rate: 250,
        rpm: 300,
        medium: 0x00,
    },
];

const FF: u8 = 0xff;

// The bits that a packet may have set, a row for each base command: in the order of the operation codes, and then 04. Byte 0 has no mask.
const MASKS: [[u8; 12]; 17] = [
    [FF, 0xe0, 0, 0, 0, 0, 0, 0, 0, 0, 0, 0],
    [FF, 0xe0, 0, 0, 0, 0, 0, 0, 0, 0, 0, 0],
    [FF, 0xe0, 0, 0, FF, 0, 0, 0, 0, 0, 0, 0],
    [FF, 0xe0, 0, 0, FF, 0, 0, 0, 0, 0, 0, 0],
    [FF, 0xe1, 0, 0, 0x03, 0, 0, 0, 0, 0, 0, 0],
    [FF, 0xe0, 0, 0, 0x01, 0, 0, 0, 0, 0, 0, 0],
    [FF, 0xe0, 0, 0, 0, 0, 0, FF, FF, 0, 0, 0],
    [FF, 0xe0, 0, 0, 0, 0, 0, 0, 0, 0, 0, 0],
    [FF, 0xe0, FF, FF, FF, FF, 0, FF, FF, 0, 0, 0],
    [FF, 0xe0, FF, FF, FF, FF, 0, FF, FF, 0, 0, 0],
    [FF, 0xe0, FF, FF, FF, FF, 0, 0, 0, 0, 0, 0],
    [FF, 0xe0, FF, FF, FF, FF, 0, FF, FF, 0, 0, 0],
    [FF, 0xe0, FF, FF, FF, FF, 0, FF, FF, 0, 0, 0],
    [FF, 0xe8, FF, 0, 0, 0, 0, FF, FF, 0, 0, 0],
    [FF, 0xe0, FF, FF, FF, FF, FF, FF, FF, FF, 0, 0],
    [FF, 0xe0, FF, FF, FF, FF, FF, FF, FF, FF, 0, 0],
    [FF, FF, FF, 0, 0, 0, 0, FF, FF, 0, 0, 0],
];

// The row of a disc's number; no disc past the table.
#[tactic(auto, unfolding(crate::specs::Formats::format_of))]
pub fn format_of(number: u8) -> Format
    ensures { result ≡ format_of number }
{
    FORMATS.get(usize::from(number)).copied().unwrap_or(NO_DISC)
}

// The bytes of a block.
#[tactic(auto, unfolding(crate::specs::Formats::block_bytes))]
pub fn block_bytes(number: u8) -> usize
    ensures { result ≡ block_bytes number }
{
    usize::from(format_of(number).size)
}

// The bytes of a disc, 0 for none.
#[tactic(auto, unfolding(crate::specs::Formats::disc_bytes))]
pub fn disc_bytes(number: u8) -> usize
    ensures { result ≡ disc_bytes number }
{
    run_bytes(number, format_of(number).blocks)
}

// The bytes of so many blocks; `as`, since usize is not From<u32>.
#[tactic(auto, using(crate::proofs::Discs::run_fits), unfolding(crate::specs::Formats::run_bytes))]
pub fn run_bytes(number: u8, blocks: u32) -> usize
    ensures { result ≡ run_bytes number blocks }
{
    (blocks as usize) * block_bytes(number)
}

// Where a block starts: the one way from a block address to a byte place.
#[tactic(auto, unfolding(crate::specs::Formats::place_of))]
pub fn place_of(number: u8, block: BlockAddress) -> BytePlace
    ensures { result ≡ place_of number block }
{
    BytePlace(run_bytes(number, block.0))
}

// The masks of a row; past the table nothing may be set.
#[tactic(auto, unfolding(crate::specs::Masks::mask_row, crate::specs::Masks::masks))]
pub fn mask_row(row: usize) -> [u8; 12]
    ensures { result ≡ mask_row row }
{
    MASKS.get(row).copied().unwrap_or([0; 12])
}
