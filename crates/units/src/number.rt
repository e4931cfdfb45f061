// The numbers of units.
ghost use Rattle.std.specs.Prelude.{◌≡◌, ◌+◌, ◌-◌, ◌<◌, ◌≤◌, map};
ghost use Rattle.std.specs.List.{range_with_len};

// The number of a unit: 1 to 14.
#[derive(Clone, Copy, PartialEq, Eq, Debug)]
pub struct UnitNumber {
    pub(crate) number: u8,
    ghost low: { 1 ≤ number },
    ghost high: { number ≤ 14 },
}

impl UnitNumber {
    // All fourteen, in order.
    pub fn all() -> [UnitNumber; 14]
        ensures { map (λ u. u.number) result ≡ range_with_len 1 14 }
    {
        std::array::from_fn(
            |p| -> UnitNumber
                requires { p < 14 }
                ensures { result.number ≡ p + 1 }
            {
                UnitNumber {
                    number: p as u8 + 1,
                }
            },
        )
    }

    // The four that hold parity, in order.
    pub fn parities() -> [UnitNumber; 4]
        ensures { map (λ u. u.number) result ≡ range_with_len 11 4 }
    {
        std::array::from_fn(
            |l| -> UnitNumber
                requires { l < 4 }
                ensures { result.number ≡ l + 11 }
            {
                UnitNumber {
                    number: l as u8 + 11,
                }
            },
        )
    }

    pub fn number(self) -> u8
        ensures { result ≡ self.number }
    {
        self.number // from 1
    }

    // Its place among the fourteen, from 0.
    pub fn position(self) -> usize
        ensures place { result ≡ self.number - 1 }
        ensures within { result < 14 }
    {
        self.number as usize - 1
    }
}

// What a number is that names no unit.
#[derive(Clone, Copy, PartialEq, Eq, Debug)]
pub struct NoUnit;
