// Why a call is refused. Each reason has a fixed number.
ghost use Rattle.std.specs.Prelude.{◌≡◌};
ghost use Rattle.stores.specs.Refusals.{number, area_number};
ghost use Rattle.stores.specs.declared.refusal.Refusal.TheVariants as of_call;

use std::fmt;
use units::number::NoUnit;

// A call of a store.
#[derive(Clone, Copy, PartialEq, Eq, Debug)]
pub enum Refusal {
    // the unit is not 1 to 14
    Unit = 1,
    // the half is not 1 or 2
    Half = 2,
    // a slice does not have the length that the call asks for
    Length = 3,
    // the unit is missing
    Missing = 4,
}

impl Refusal {
    pub fn code(&self) -> u8
        ensures { result ≡ number self.now }
    {
        *self as u8
    }
}

impl From<NoUnit> for Refusal {
    ghost from_gives = { λ _ e. e ≡ of_call.Unit };

    fn from(_: NoUnit) -> Refusal {
        Self::Unit
    }
}

// The measures of an area store.
#[derive(Clone, Copy, PartialEq, Eq, Debug)]
pub enum AreaRefusal {
    // the half size is 0 or over 512
    HalfSize = 9,
    // the hop length is 0 or does not divide the half size
    HopLength = 10,
    // the area's length is not 28 half sizes
    AreaLength = 11,
}

impl AreaRefusal {
    pub fn code(&self) -> u8
        ensures { result ≡ area_number self.now }
    {
        *self as u8
    }
}

impl fmt::Display for Refusal {
    fn fmt<W: fmt::Write>(&self, f: &mut fmt::Formatter<W>) -> fmt::Result {
        f.write_str(match self {
            Refusal::Unit => "the unit is not 1 to 14",
            Refusal::Half => "the half is not 1 or 2",
            Refusal::Length => "a slice has another length than stated",
            Refusal::Missing => "the unit that a store is to read is missing",
        })
    }
}

impl fmt::Display for AreaRefusal {
    fn fmt<W: fmt::Write>(&self, f: &mut fmt::Formatter<W>) -> fmt::Result {
        f.write_str(match self {
            AreaRefusal::HalfSize => "the half size is 0 or over 512",
            AreaRefusal::HopLength => "the hop length is 0 or does not divide the half size",
            AreaRefusal::AreaLength => "the area does not have 28 half sizes",
        })
    }
}
