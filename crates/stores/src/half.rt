// The two halves of a unit.
ghost use Rattle.std.specs.Prelude.{◌≡◌, ◌-◌, ◌<◌};
ghost use Rattle.stores.specs.Halves.{Names, half_number};

use crate::refusal::Refusal;

#[derive(Clone, Copy)]
pub(crate) enum Half {
    First = 1,
    Second = 2,
}

impl Half {
    // Its place among the two, from 0.
    pub(crate) fn position(self) -> usize
        ensures place { result ≡ half_number self - 1 }
        ensures within { result < 2 }
    {
        self as usize - 1
    }
}

impl TryFrom<u8> for Half {
    type Error = Refusal;

    ghost try_from_gives = { Names };

    fn try_from(number: u8) -> Result<Half, Refusal> {
        match number {
            1 => Ok(Half::First),
            2 => Ok(Half::Second),
            _ => Err(Refusal::Half),
        }
    }
}
