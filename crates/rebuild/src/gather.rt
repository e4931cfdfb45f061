// The fetched symbols by position.
ghost use Rattle.std.specs.Prelude.{◌≡◌, ℕ, ◌+◌, ◌<◌, length, if◌then◌else◌, nat_eq, slice_index_or};
ghost use Rattle.rebuild.specs.Gathered.{fetched_by};

use field::symbol::Symbol;
use units::number::UnitNumber;

// The symbols fetched for one half of the fourteen units, zero where none was. Of two for one unit the first counts, so it is written last.
pub(crate) fn by_position<S: Symbol + Copy>(list: &[(u8, u8)], fetched: &[S], half: u8) -> [S; 14]
    ensures { (p : ℕ) → slice_index_or result p S.zero ≡ fetched_by S.zero list.now fetched.now half p }
{
    let mut symbols = [S::zero(); 14];
    // both from the back: a zip that is reversed compares their lengths at each pair
    let count = list.len().min(fetched.len());
    let pairs = list[..count]
        .iter()
        .rev()
        .zip(fetched[..count].iter().rev());
    for (entry, symbol) in pairs {
        if entry.1 == half {
            place(&mut symbols, entry.0, *symbol);
        }
    }
    symbols
}

// Writes the symbol of a unit; a number that is no unit has no place.
fn place<S: Symbol + Copy>(symbols: &mut [S; 14], unit: u8, symbol: S)
    ensures long { length symbols.new ≡ 14 }
    ensures placed { (p : ℕ) → p < 14 → slice_index_or symbols.new p S.zero ≡ (if nat_eq unit (p + 1) then symbol else slice_index_or symbols.old p S.zero) }
{
    if let Ok(unit) = UnitNumber::try_from(unit) {
        symbols[unit.position()] = symbol;
    }
}

// Changes nothing: its clause says that all symbols of a slice are ones that code holds.
pub(crate) fn all_held<S: Symbol + Copy>(symbols: &[S])
    ensures { (i : ℕ) → i < length symbols.now → S.ok (slice_index_or symbols.now i S.zero) }
{
    for symbol in symbols {
        let _same = symbol.held();
    }
}
