// What crossed the link, and what Reed-Solomon would have sent.
use std::ops::Add;

#[derive(Clone, Copy, Default)]
pub struct Tally {
    pub halves: u32,
    pub bytes: u32,
    pub rs_halves: u32,
    pub rs_bytes: u32,
}

impl Tally {
    // One rebuild, by that many halves of that size. Reed-Solomon always takes twenty.
    pub fn of_rebuild(halves: u32, size: usize) -> Tally {
        let size = size.min(512) as u32;
        Tally {
            halves,
            bytes: halves.saturating_mul(size),
            rs_halves: 20,
            rs_bytes: 20 * size,
        }
    }
}

impl Add for Tally {
    type Output = Tally;

    fn add(self, other: Tally) -> Tally {
        Tally {
            halves: self.halves.saturating_add(other.halves),
            bytes: self.bytes.saturating_add(other.bytes),
            rs_halves: self.rs_halves.saturating_add(other.rs_halves),
            rs_bytes: self.rs_bytes.saturating_add(other.rs_bytes),
        }
    }
}
