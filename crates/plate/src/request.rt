// What a line asks for, and why one is refused.
ghost use Rattle.std.specs.Prelude.{◌≡◌};
ghost use Rattle.plate.specs.Pages.{number};
ghost use Rattle.plate.specs.declared.request.Refusal.TheVariants.{Unit as unit};

use codes::version::Version;
use units::number::{NoUnit, UnitNumber};

#[derive(Clone, Copy, PartialEq, Eq)]
pub enum CodeName {
    Cauchy,
    Poly,
}

#[derive(Clone, Copy, PartialEq, Eq)]
pub struct Request {
    pub version: Version,
    pub code: CodeName,
    pub unit: UnitNumber,
}

#[derive(Clone, Copy, PartialEq, Eq)]
pub enum Refusal {
    // the number is not one of 1 to 14
    Unit = 1,
    // the line has another form
    Form = 12,
}

impl From<NoUnit> for Refusal {
    ghost from_gives = { λ _ e. e ≡ unit };

    fn from(_: NoUnit) -> Refusal {
        Refusal::Unit
    }
}

impl Refusal {
    pub fn number(self) -> u8
        ensures { result ≡ number self }
    {
        self as u8
    }
}
