// Columns from ten chosen positions, of any kind of symbol.
ghost use Rattle.std.specs.Prelude.{◌≡◌, ℕ, ◌<◌, get_or, slice_index, slice_index_or};
ghost use Rattle.field.specs.Space.{dot};
ghost use Rattle.tables.specs.Multipliers.{entry};
ghost use Rattle.rebuild.specs.Gathered.{first_alone, second_alone};
ghost use Rattle.rebuild.specs.Tableaus.{at};

use crate::tableau::Tableau;
use codes::encoder::Encoder;
use codes::version::Version;
use field::symbol::{Symbol, sum_of_products};

impl Tableau {
    // The ten data symbols, each as the combination of the chosen positions that its row says.
    pub(crate) fn column<S: Symbol + Copy>(&self, known: &[S; 14]) -> [S; 10]
        ensures { (k : ℕ) → k < 10 → slice_index_or result k S.zero ≡ dot S.zero S.sum S.times 10 (at self.now.rows k) (λ i. get_or known.now (slice_index self.now.basis i) S.zero) }
    {
        let chosen = self.at_basis(known);
        std::array::from_fn(
            |k| -> S
                requires { k < 10 }
                ensures { result ≡ dot S.zero S.sum S.times 10 (at self.entry.now.rows k) (λ i. slice_index_or chosen i S.zero) }
            { sum_of_products(&self.rows[k], &chosen) },
        )
    }

    // The symbols at the chosen positions, in the order of the basis.
    fn at_basis<S: Symbol + Copy>(&self, known: &[S; 14]) -> [S; 10]
        ensures { (i : ℕ) → i < 10 → slice_index_or result i S.zero ≡ slice_index_or known.now (slice_index self.now.basis i) S.zero }
    {
        self.basis.map(
            |p| -> S
                requires { p < 14 }
                ensures { result ≡ slice_index_or known.entry.now p S.zero }
            { known[p as usize] },
        )
    }
}

// The first symbols as the base code has them: unit 12's with its second added back where the version has added it.
pub(crate) fn unmixed<S: Symbol + Copy>(version: Version, x: &[S; 14], y: &[S; 14]) -> [S; 14]
    ensures { (p : ℕ) → p < 14 → slice_index_or result p S.zero ≡ first_alone S.sum version (λ q. get_or x.now q S.zero) (λ q. get_or y.now q S.zero) p }
{
    std::array::from_fn(
        |p| -> S
            requires { p < 14 }
            ensures { result ≡ first_alone S.sum version (λ q. get_or x.entry.now q S.zero) (λ q. get_or y.entry.now q S.zero) p }
        {
            if p >= 10 && version.mixed(p - 10) {
                x[p].sum(y[p])
            } else {
                x[p]
            }
        },
    )
}

// The second symbols as the base code has them: what the first symbols a put there is taken out.
pub(crate) fn unburdened<S: Symbol + Copy>(encoder: &Encoder, a: &[S; 10], y: &[S; 14]) -> [S; 14]
    ensures { (p : ℕ) → p < 14 → slice_index_or result p S.zero ≡ second_alone S.zero S.sum S.times encoder.now.version (entry encoder.now.table) (λ k. get_or a.now k S.zero) (λ q. get_or y.now q S.zero) p }
{
    std::array::from_fn(
        |p| -> S
            requires { p < 14 }
            ensures { result ≡ second_alone S.zero S.sum S.times encoder.entry.now.version (entry encoder.entry.now.table) (λ k. get_or a.entry.now k S.zero) (λ q. get_or y.entry.now q S.zero) p }
        {
            if p < 10 {
                y[p]
            } else {
                y[p].sum(encoder.added(a, p - 10))
            }
        },
    )
}
