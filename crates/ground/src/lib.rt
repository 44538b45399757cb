// What knows nothing of the drive: a byte at a place, numbers of several bytes, the smaller of two counts, the start of a buffer filled.
#![tactic(auto)]

ghost use Rattle.std.specs.Prelude.{◌≡◌};
ghost use Rattle.ground.specs.Kit.{min, length};
ghost use Rattle.ground.specs.Bytes.{byte_at, word, long, little};
ghost use Rattle.ground.specs.Filling.{filled, fill_of};

// The byte at `i`, 0 past the end.
pub fn byte(bytes: &[u8], i: usize) -> u8
    ensures { result ≡ byte_at bytes.now i }
{
    bytes.get(i).copied().unwrap_or(0)
}

// Big-endian numbers of two and of four bytes.
pub fn word_of(a: u8, b: u8) -> u32
    ensures { result ≡ word a b }
{
    u16::from_be_bytes([a, b]) as u32
}

pub fn long_of(a: u8, b: u8, c: u8, d: u8) -> u32
    ensures { result ≡ long a b c d }
{
    u32::from_be_bytes([a, b, c, d])
}

// A little-endian number of two bytes.
pub fn little_of(low: u8, high: u8) -> usize
    ensures { result ≡ little low high }
{
    u16::from_le_bytes([low, high]) as usize
}

// The smaller of two counts.
pub fn least(a: usize, b: usize) -> usize
    ensures { result ≡ min a b }
{
    a.min(b)
}

// Fills the start of the buffer with the first bytes of the source, as many as both have.
pub fn fill(source: &[u8], buffer: &mut [u8]) -> usize
    ensures { filled result buffer.new
        ≡ fill_of (min (length source.now) (length buffer.old)) source.now buffer.old }
{
    let n = source.len().min(buffer.len());
    buffer[..n].copy_from_slice(&source[..n]);
    n
}
