// Solving the data of a filling from ten of its units.
ghost use Rattle.std.specs.Prelude.{◌≡◌, slice_index_or};
ghost use Rattle.tables.specs.Multipliers.{entry};
ghost use Rattle.rebuild.specs.Plans.{stands_in};
ghost use Rattle.rebuild.specs.SolverCalls.{Prepares};
ghost use Rattle.rebuild.specs.Solvers.{TheData};

use crate::data::data_of;
use crate::gather::all_held;
use crate::positions::lowest;
use crate::refusal::Refusal;
use crate::solver::Solver;
use crate::tableau::Tableau;
use codes::fetch::count_standing;
use codes::scheme::Scheme;
use field::symbol::Symbol;

impl Solver {
    // The solver for the ten lowest of the units that stand.
    pub fn new<V: Scheme>(scheme: &V, standing: &[bool; 14]) -> Result<Solver, Refusal>
        ensures { Prepares (V.version scheme.now) (V.table scheme.now) standing.now result }
    {
        if count_standing(standing) < 10 {
            return Err(Refusal::TooFew);
        }
        let encoder = scheme.encoder();
        let chosen = lowest(standing);
        let tableau = Tableau::solve(&encoder.table, &chosen);
        Ok(Solver {
            encoder,
            standing: *standing,
            tableau,
        })
    }

    // The ten first and ten second symbols of the data that has the symbols x and y in those units; the others are not read.
    pub fn data<S: Symbol + Copy>(&self, x: &[S; 14], y: &[S; 14]) -> ([S; 10], [S; 10])
        ensures { TheData S.ok S.zero S.sum S.times self.now.encoder.version (entry self.now.encoder.table) (stands_in self.now.standing) (λ p. slice_index_or x.now p S.zero) (λ p. slice_index_or y.now p S.zero) (λ k. slice_index_or result.0 k S.zero) (λ k. slice_index_or result.1 k S.zero) }
    {
        all_held(x);
        all_held(y);
        data_of(&self.encoder, &self.tableau, x, y)
    }
}
