// A plan to rebuild a lost unit: made once, and then applied at every byte position.
ghost use Rattle.rebuild.specs.Plans.{Planned};

use crate::tableau::Tableau;
use codes::encoder::Encoder;
use codes::list::FetchList;
use units::number::UnitNumber;

#[derive(Clone, Copy)]
pub struct Plan {
    pub(crate) encoder: Encoder,
    pub(crate) standing: [bool; 14],
    pub(crate) unit: UnitNumber,
    pub(crate) short: bool,
    pub(crate) list: FetchList,
    pub(crate) tableau: Tableau,
    ghost planned: { ∥ Planned encoder.version encoder.table standing unit.number short list tableau ∥₁ },
}
