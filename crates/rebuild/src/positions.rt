// The ten positions that a rebuild solves.
ghost use Rattle.std.specs.Prelude.{◌≡◌, ℕ, ◌<◌, false, not, ◌&&◌, get_or, ◌==◌, nat_lt, slice_index_or};
ghost use Rattle.tables.specs.Codewords.{count};
ghost use Rattle.codes.specs.Lists.{lowest as among_lowest};
ghost use Rattle.rebuild.specs.Plans.{solved_at, stands_in};

// The positions that are solved for the missing position u.
pub(crate) fn solved_positions(short: bool, standing: &[bool; 14], u: usize) -> [bool; 14]
    ensures { (p : ℕ) → p < 14 → slice_index_or result p false ≡ solved_at short (stands_in standing.now) u p }
{
    if short { front(u) } else { lowest(standing) }
}

// Units 1 to 11 without the unit at position u.
fn front(u: usize) -> [bool; 14]
    ensures { (p : ℕ) → p < 14 → slice_index_or result p false ≡ nat_lt p 11 && not (p == u) }
{
    std::array::from_fn(|p| p < 11 && p != u)
}

// The ten lowest that stand: below each stand fewer than ten.
pub(crate) fn lowest(standing: &[bool; 14]) -> [bool; 14]
    ensures { (p : ℕ) → p < 14 → slice_index_or result p false ≡ among_lowest 10 (λ q. get_or standing.now q false) p }
{
    std::array::from_fn(|p| standing[p] && standing_below(standing, p) < 10)
}

// How many stand below position p.
fn standing_below(standing: &[bool; 14], p: usize) -> usize
    requires { p < 14 }
    ensures { result ≡ count p (λ q. get_or standing.now q false) }
{
    standing[..p].iter().filter(|stands| **stands).count()
}
