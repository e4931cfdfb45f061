// Why a call of this library is refused.
ghost use Rattle.std.specs.Prelude.{◌≡◌};
ghost use Rattle.codes.specs.Refusals.{number};
ghost use Rattle.codes.specs.declared.refusal.Refusal.TheVariants.{NoUnit as no_unit};

use units::number::NoUnit;

#[derive(Clone, Copy, PartialEq, Eq, Debug)]
pub enum Refusal {
    // the unit is not one of 1 to 14
    NoUnit = 1,
    // a slice has another length than the call takes
    WrongLength = 3,
}

impl From<NoUnit> for Refusal {
    ghost from_gives = { λ _ e. e ≡ no_unit };

    fn from(_: NoUnit) -> Refusal {
        Self::NoUnit
    }
}

impl Refusal {
    pub fn number(self) -> u8
        ensures { result ≡ number self }
    {
        self as u8
    }
}
