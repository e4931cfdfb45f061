// What holds of the fillings of every scheme: how many units tell a filling, how far two fillings are apart, and what is rebuilt of a missing unit.

#![tactic(auto)]

ghost use Rattle.std.specs.Prelude.{◌≡◌};
ghost use Rattle.tables.specs.Multipliers.{entry};
ghost use Rattle.fillings.specs.Columns.{SymbolLaw};
ghost use Rattle.fillings.specs.Differences.{Distance, Unknown};
ghost use Rattle.fillings.specs.Fillings.{AnyTen, Sums};
ghost use Rattle.fillings.specs.Rebuilding.{RebuiltOne, Own};

use codes::scheme::Scheme;
use field::symbol::Symbol;

// In how many units two different fillings differ at least; fewer than ten units leave every other data unit open.
pub fn distance<V: Scheme>(scheme: &V) -> u8
    ensures value { result ≡ 5 }
    ensures apart { Distance (V.version scheme.now) (entry (V.table scheme.now)) }
    ensures unknown { Unknown (V.version scheme.now) (entry (V.table scheme.now)) }
{
    5
}

// How many units tell a filling, of any kind of symbol; and what a fetch list rebuilds from as many.
pub fn any_ten<V: Scheme, S: Symbol>(scheme: &V) -> u8
    ensures value { result ≡ 10 }
    ensures column { SymbolLaw S.ok S.zero S.sum S.times (entry (V.table scheme.now)) }
    ensures whole { AnyTen S.ok S.zero S.sum S.times (V.version scheme.now) (entry (V.table scheme.now)) }
    ensures sums { Sums S.zero S.sum S.times (V.version scheme.now) (entry (V.table scheme.now)) }
    ensures rebuilt { RebuiltOne S.ok S.zero S.sum S.times (V.version scheme.now) (entry (V.table scheme.now)) }
    ensures own { Own S.ok S.zero S.sum S.times (V.version scheme.now) (entry (V.table scheme.now)) }
{
    10
}
