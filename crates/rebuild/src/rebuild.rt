// Making a plan, and rebuilding by it.
ghost use Rattle.std.specs.Prelude.{◌≡◌, ◌-◌, ◌<◌, true, false, slice_index_or};
ghost use Rattle.tables.specs.Multipliers.{entry};
ghost use Rattle.codes.specs.Lists.{listed, fetch_list_of};
ghost use Rattle.fillings.specs.Rebuilding.{Rebuilt};
ghost use Rattle.rebuild.specs.Gathered.{fetched_by};
ghost use Rattle.rebuild.specs.PlanCalls.{Plans};
ghost use Rattle.rebuild.specs.Plans.{stands_in, Rebuilds, Only};

use crate::data::data_of;
use crate::gather::{all_held, by_position};
use crate::plan::Plan;
use crate::positions::solved_positions;
use crate::refusal::Refusal;
use crate::short::piece;
use crate::tableau::Tableau;
use codes::fetch::{count_standing, fetch_list, is_short};
use codes::list::FetchList;
use codes::scheme::Scheme;
use field::symbol::Symbol;
use units::number::UnitNumber;

impl Plan {
    // The plan for the lost unit u, where `standing` says of units 1 to 14 whether they stand.
    pub fn new<V: Scheme>(scheme: &V, standing: &[bool; 14], u: u8) -> Result<Plan, Refusal>
        ensures { Plans (V.version scheme.now) (V.table scheme.now) standing.now u result }
    {
        let unit = UnitNumber::try_from(u)?;
        let position = unit.position();
        if standing[position] {
            return Err(Refusal::Stands);
        }
        if count_standing(standing) < 10 {
            return Err(Refusal::TooFew);
        }
        let encoder = scheme.encoder();
        let short = is_short(encoder.version, standing, position);
        let chosen = solved_positions(short, standing, position);
        let tableau = Tableau::solve(&encoder.table, &chosen);
        let list = fetch_list(encoder.version, standing, u);
        Ok(Plan {
            encoder,
            standing: *standing,
            unit,
            short,
            list,
            tableau,
        })
    }

    // The halves to fetch, in order.
    pub fn list(&self) -> FetchList
        ensures { listed result ≡ fetch_list_of self.now.encoder.version (stands_in self.now.standing) self.now.unit.number }
    {
        fetch_list(self.encoder.version, &self.standing, self.unit.number())
    }

    // The two symbols of the unit at one byte position, from those of the listed halves, in the list's order; what stands behind
    // the list's length is not read.
    pub fn rebuild<S: Symbol + Copy>(&self, fetched: &[S; 20]) -> (S, S)
        ensures { Rebuilds S.ok S.zero S.sum S.times self.now.encoder.version self.now.encoder.table (stands_in self.now.standing) self.now.unit.number (fetch_list_of self.now.encoder.version (stands_in self.now.standing) self.now.unit.number) fetched.now result }
    {
        self.rebuild_listed(&self.list, fetched)
    }

    // The same of symbols that were fetched in the order of another list.
    pub fn rebuild_listed<S: Symbol + Copy>(&self, list: &FetchList, fetched: &[S; 20]) -> (S, S)
        ensures rebuilt { ∥ Rebuilt S.ok S.zero S.sum S.times self.now.encoder.version (entry self.now.encoder.table) (stands_in self.now.standing) (self.now.unit.number - 1) (fetched_by S.zero (listed list.now) fetched.now 1) (fetched_by S.zero (listed list.now) fetched.now 2) result ∥₁ }
        ensures only { Only S.ok S.zero S.sum S.times self.now.encoder.version self.now.encoder.table (stands_in self.now.standing) self.now.unit.number (fetched_by S.zero (listed list.now) fetched.now 1) (fetched_by S.zero (listed list.now) fetched.now 2) result }
    {
        all_held(fetched);
        let halves = list.halves();
        let x = by_position(halves, fetched, 1);
        let y = by_position(halves, fetched, 2);
        self.unit_from(&x, &y)
    }

    // The unit from the fetched symbols by position: the first, x, and the second, y. They stay two parameters, since a generic
    // struct holds no array of a type parameter.
    fn unit_from<S: Symbol + Copy>(&self, x: &[S; 14], y: &[S; 14]) -> (S, S)
        ensures { Only S.ok S.zero S.sum S.times self.now.encoder.version self.now.encoder.table (stands_in self.now.standing) self.now.unit.number (λ p. slice_index_or x.now p S.zero) (λ p. slice_index_or y.now p S.zero) result }
    {
        if self.short {
            self.by_short(x, y)
        } else {
            self.by_whole(x, y)
        }
    }

    // By a short list: the column of second symbols, and the first symbol by the group.
    fn by_short<S: Symbol + Copy>(&self, x: &[S; 14], y: &[S; 14]) -> (S, S)
        requires { self.now.short ≡ true }
        ensures { Only S.ok S.zero S.sum S.times self.now.encoder.version self.now.encoder.table (stands_in self.now.standing) self.now.unit.number (λ p. slice_index_or x.now p S.zero) (λ p. slice_index_or y.now p S.zero) result }
    {
        let position = self.data_position();
        let b = self.tableau.column(y);
        (piece(&self.encoder, x, y, &b, position), b[position])
    }

    // The position of the unit, which is a data unit where its list is short.
    fn data_position(&self) -> usize
        requires { self.now.short ≡ true }
        ensures value { result ≡ self.now.unit.number - 1 }
        ensures bound { result < 10 }
    {
        self.unit.position()
    }

    // From ten units: the data, and its unit.
    fn by_whole<S: Symbol + Copy>(&self, x: &[S; 14], y: &[S; 14]) -> (S, S)
        requires { self.now.short ≡ false }
        ensures { Only S.ok S.zero S.sum S.times self.now.encoder.version self.now.encoder.table (stands_in self.now.standing) self.now.unit.number (λ p. slice_index_or x.now p S.zero) (λ p. slice_index_or y.now p S.zero) result }
    {
        let (a, b) = data_of(&self.encoder, &self.tableau, x, y);
        self.encoder.unit(&a, &b, self.unit)
    }
}
