// A solver of the data from ten units: made once for a choice of units, and then applied at every byte position.
ghost use Rattle.rebuild.specs.Solvers.{Prepared};

use crate::tableau::Tableau;
use codes::encoder::Encoder;

#[derive(Clone, Copy)]
pub struct Solver {
    pub(crate) encoder: Encoder,
    pub(crate) standing: [bool; 14],
    pub(crate) tableau: Tableau,
    ghost prepared: { ∥ Prepared encoder.table standing tableau ∥₁ },
}
