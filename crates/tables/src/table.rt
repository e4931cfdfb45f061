// The forty multipliers of a base code, held by value.
ghost use Rattle.std.specs.Prelude.{◌≡◌, ◌-◌, ◌≤◌, ◌<◌, get_or};
ghost use Rattle.tables.specs.Multipliers.{entry, multiplier_of};

// The ten multipliers of one parity.
#[derive(Clone, Copy)]
pub struct Row {
    pub at: [u8; 10],
}

// The rows of the four parities.
#[derive(Clone, Copy)]
pub struct Table {
    pub rows: [Row; 4],
}

impl Row {
    // The multiplier of data j, from 1; 0 where j is not 1 to 10.
    pub fn multiplier(&self, j: u8) -> u8
        ensures { result ≡ multiplier_of (λ _ k. get_or self.now.at k 0) 1 j }
    {
        match j {
            1..=10 => self.at[j as usize - 1],
            _ => 0,
        }
    }
}

impl Table {
    // The multiplier of data j in parity l, both from 1; 0 where l is not 1 to 4 or j not 1 to 10.
    pub fn multiplier(&self, l: u8, j: u8) -> u8
        ensures { result ≡ multiplier_of (entry self.now) l j }
    {
        match l {
            1..=4 => self.rows[l as usize - 1].multiplier(j),
            _ => 0,
        }
    }
}
