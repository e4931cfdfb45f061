// The data of a filling from ten of its units, at one byte position.
ghost use Rattle.std.specs.Prelude.{◌≡◌, false, slice_index_or};
ghost use Rattle.tables.specs.Multipliers.{entry};
ghost use Rattle.rebuild.specs.Data.{Solves};
ghost use Rattle.rebuild.specs.Tableaus.{Fair};

use crate::columns::{unburdened, unmixed};
use crate::tableau::Tableau;
use codes::encoder::Encoder;
use field::symbol::Symbol;

// The ten first and ten second symbols: first a, with unit 12's second added back, and then b, with what a put there taken out.
pub(crate) fn data_of<S: Symbol + Copy>(
    encoder: &Encoder,
    tableau: &Tableau,
    x: &[S; 14],
    y: &[S; 14],
) -> ([S; 10], [S; 10])
    requires { ∥ Fair (entry encoder.now.table) (λ p. slice_index_or tableau.now.chosen p false) tableau.now.rows tableau.now.basis ∥₁ }
    ensures { Solves S.ok S.zero S.sum S.times encoder.now.version (entry encoder.now.table) (λ p. slice_index_or tableau.now.chosen p false) (λ p. slice_index_or x.now p S.zero) (λ p. slice_index_or y.now p S.zero) (λ k. slice_index_or result.0 k S.zero) (λ k. slice_index_or result.1 k S.zero) }
{
    let a = tableau.column(&unmixed(encoder.version, x, y));
    let b = tableau.column(&unburdened(encoder, &a, y));
    (a, b)
}
