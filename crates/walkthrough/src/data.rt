// The data of the walk: a fixed rule, so that everyone can work it out again.
ghost use Rattle.std.specs.Prelude.{◌≡◌, ◌+◌, ◌*◌, ◌%◌};

use codes::encode::encode_unit;
use codes::refusal::Refusal;
use codes::scheme::Scheme;

// The fourteen units at one byte position, of the walk's data under one scheme.
pub(crate) type Units = [(u8, u8); 14];

// The byte at position i of the first or second half of data unit u.
pub fn data_byte(u: u8, half: u8, i: u8) -> u8
    ensures { result ≡ (29 * u + 101 * half + 7 * i) % 256 }
{
    ((29 * u as u32 + 101 * half as u32 + 7 * i as u32) % 256) as u8
}

// The ten bytes at position i of the first or of the second halves.
fn column(half: u8, i: u8) -> [u8; 10] {
    std::array::from_fn(|k| data_byte(k as u8 + 1, half, i))
}

// The fourteen units at position i.
pub(crate) fn units_at<V: Scheme>(scheme: &V, i: u8) -> Result<Units, Refusal> {
    let a = column(1, i);
    let b = column(2, i);
    std::array::try_from_fn(|p| encode_unit(scheme, &a, &b, p as u8 + 1))
}
