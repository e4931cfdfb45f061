// Why a call of a set is refused.
ghost use Rattle.std.specs.Prelude.{◌≡◌};
ghost use Rattle.sets.specs.Refusals.{number};
ghost use Rattle.sets.specs.declared.refusal.Refusal.TheVariants.{NoUnit as no_unit};

use std::fmt;
use units::number::NoUnit;

#[derive(Clone, Copy, PartialEq, Eq, Debug)]
pub enum Refusal {
    // the unit is not one of 1 to 14, or of 1 to 10 where data is read or changed
    NoUnit = 1,
    // a slice has another length than the call takes
    WrongLength = 3,
    // fewer than ten units stand
    TooFew = 5,
    // a rebuild is open
    RebuildOpen = 6,
    // the ticket does not match
    WrongTicket = 7,
    // the unit to be opened stands
    Stands = 8,
}

impl From<NoUnit> for Refusal {
    ghost from_gives = { λ _ e. e ≡ no_unit };

    fn from(_: NoUnit) -> Refusal {
        Self::NoUnit
    }
}

impl Refusal {
    pub fn number(self) -> u8
        ensures { result ≡ number self }
    {
        self as u8
    }
}

impl fmt::Display for Refusal {
    fn fmt<W: fmt::Write>(&self, f: &mut fmt::Formatter<W>) -> fmt::Result {
        f.write_str(match self {
            Refusal::NoUnit => {
                "the unit is not 1 to 14, or not 1 to 10 where data is read or changed"
            }
            Refusal::WrongLength => "a slice has another length than stated",
            Refusal::TooFew => "fewer than ten units stand",
            Refusal::RebuildOpen => "a rebuild is open",
            Refusal::WrongTicket => "the ticket does not match",
            Refusal::Stands => "the unit to be opened stands",
        })
    }
}
