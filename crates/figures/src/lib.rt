// Worked figures: what the definitions of the field, the codes and the stores give in small cases.

#![tactic(auto)]

ghost use Rattle.std.specs.Prelude.{◌≡◌, length};
ghost use Rattle.figures.specs.Figures.{figures, Hold};

// How many figures there are, of units at one byte position (`archive::figures` has them of whole fillings); the contract says that the definitions give every one of them.
pub fn figure_count() -> usize
    ensures count { result ≡ length figures }
    ensures hold { Hold figures }
{
    11
}
