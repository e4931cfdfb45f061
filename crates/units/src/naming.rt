// Which unit a number names.
ghost use Rattle.units.specs.Numbers.{Names, NamesData};

use crate::number::{NoUnit, UnitNumber};

impl TryFrom<u8> for UnitNumber {
    type Error = NoUnit;

    ghost try_from_gives = { Names };

    fn try_from(number: u8) -> Result<UnitNumber, NoUnit> {
        match number {
            1..=14 => Ok(UnitNumber { number }),
            _ => Err(NoUnit),
        }
    }
}

impl UnitNumber {
    // The unit of a number, if it holds data.
    pub fn of_data(number: u8) -> Result<UnitNumber, NoUnit>
        ensures { NamesData number result }
    {
        match number {
            1..=10 => Ok(UnitNumber { number }),
            _ => Err(NoUnit),
        }
    }
}
