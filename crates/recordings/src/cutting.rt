// How a recording is cut into sets.
ghost use Rattle.std.specs.Prelude.{◌≡◌, ◌+◌, ◌*◌, ◌/◌, ◌%◌, ◌<◌, ◌≤◌, min, length};

// How many bytes a full set holds: ten units of two halves of 512 bytes.
pub const FULL_SET: usize = 10_240;

// The byte at position i of a recording made by a fixed rule, so that everyone can work it out again.
pub fn byte_at(i: u16) -> u8
    ensures { result ≡ (29 * i + 101 * (i / 256)) % 256 }
{
    ((29 * i as u32 + 101 * (i as u32 / 256)) % 256) as u8
}

// How many zeros go behind a recording, so that its last set has a whole number of half positions: 20 bytes for each.
pub fn padding(len: usize) -> usize
    ensures few { result < 20 }
    ensures whole { (len + result) % 20 ≡ 0 }
{
    (20 - len % 20) % 20
}

// How many sets a recording takes.
pub fn set_count(len: usize) -> usize
    ensures enough { len ≤ 10240 * result }
    ensures fewest { 10240 * result < len + 10240 }
{
    let full = len / 10_240;
    if len % 10_240 == 0 {
        return full;
    }
    full + 1
}

// The bytes of one set: ten data units in a row, each its first half and then its second.
#[derive(Clone, Copy)]
pub struct Part<'a> {
    pub number: usize,
    pub bytes: &'a [u8],
}

impl<'a> Part<'a> {
    // How many bytes a half has.
    pub fn half_size(&self) -> usize
        ensures { result ≡ min (length self.now.bytes.now / 20) 512 }
    {
        (self.bytes.len() / 20).min(512)
    }
}
