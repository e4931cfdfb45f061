// Fetch lists: which halves are read to rebuild a missing unit.
ghost use Rattle.std.specs.Prelude.{◌≡◌, ℕ, ◌+◌, ◌-◌, ◌<◌, ◌≤◌, false, [], ◌∷◌, ◌++◌, map, length, slice_index_or};
ghost use Rattle.tables.specs.Codewords.{count};
ghost use Rattle.tables.specs.Multipliers.{upto};
ghost use Rattle.codes.specs.Lists.{listed, without, wholes, half as half_of, lowest, home as home_of, short_end, short_list, fetch_list_of as fetch_of, symbol_in, all_without, listed_at, long_list, is_short_for as short_at};

use crate::list::FetchList;
use crate::version::Version;
use std::ops::Range;
use units::number::UnitNumber;

impl FetchList {
    // The listed halves, in order.
    pub fn halves(&self) -> &[(u8, u8)]
        ensures { result.now ≡ listed self.now }
    {
        &self.halves[0..self.len]
    }

    // The symbols of the listed halves, in order, of fourteen units that are pairs of symbols; `rest` behind them.
    pub fn pick<S: Copy>(&self, units: &[(S, S); 14], rest: S) -> [S; 20]
        ensures { (i : ℕ) → i < 20 → slice_index_or result i rest ≡ slice_index_or (map (symbol_in rest units.now) (listed self.now)) i rest }
    {
        std::array::from_fn(
            |i| -> S
                ensures { result ≡ slice_index_or (map (symbol_in rest units.entry.now) (listed self.entry.now)) i rest }
            { self.symbol_at(units, rest, i) },
        )
    }

    // The symbol of listed half i, from 0; `rest` behind the list.
    fn symbol_at<S: Copy>(&self, units: &[(S, S); 14], rest: S, i: usize) -> S
        ensures { result ≡ slice_index_or (map (symbol_in rest units.now) (listed self.now)) i rest }
    {
        match self.halves().get(i) {
            Some((unit, half)) => symbol_of(units, rest, *unit, *half),
            None => rest,
        }
    }

    // A list of nothing.
    pub fn new() -> FetchList
        ensures items { listed result ≡ [] }
        ensures count { result.len ≡ 0 }
    {
        FetchList {
            halves: [(0, 0); 20],
            len: 0,
        }
    }

    // One half more.
    fn push(&mut self, unit: u8, half: u8)
        requires { self.old.len < 20 }
        ensures items { listed self.new ≡ listed self.old ++ ((unit, half) ∷ []) }
        ensures count { self.new.len ≡ self.old.len + 1 }
    {
        self.halves[self.len] = (unit, half);
        self.len += 1;
    }

    // Both halves of the unit at position p.
    fn push_whole(&mut self, p: usize)
        requires { (self.old.len ≤ 18) × (p < 14) }
        ensures items { listed self.new ≡ listed self.old ++ (half_of 1 p ∷ half_of 2 p ∷ []) }
        ensures count { self.new.len ≡ self.old.len + 2 }
    {
        let unit = p as u8 + 1;
        self.push(unit, 1);
        self.push(unit, 2);
    }

    // One half of each unit at the positions of a range, without that at `except`.
    fn push_others(&mut self, half: u8, positions: Range<usize>, except: usize)
        requires { (positions.start ≤ positions.end) × ((positions.end ≤ 14) × (self.old.len + (positions.end - positions.start) ≤ 20)) }
        ensures items { listed self.new ≡ listed self.old ++ map (half_of half) (without except (upto positions.start (positions.end - positions.start))) }
        ensures count { self.new.len ≤ self.old.len + (positions.end - positions.start) }
    {
        for p in positions {
            if p != except {
                self.push(p as u8 + 1, half);
            }
        }
    }

    // What a short list of the data position u has behind its ten second halves.
    fn push_end(&mut self, version: Version, u: usize)
        requires { self.old.len ≤ 11 }
        ensures { listed self.new ≡ listed self.old ++ short_end version u (home_of version u) }
    {
        match version.home(u) {
            None => {
                self.push(13, 2);
                self.push(14, 2);
                self.push(12, 1);
            }
            Some(l) => {
                self.push(11 + l as u8, 2);
                self.push_others(1, version.group(l), u);
            }
        }
    }
}

// The short list of the data position u.
fn short(version: Version, u: usize) -> FetchList
    requires { u < 10 }
    ensures { listed result ≡ short_list version u }
{
    let mut list = FetchList::new();
    list.push_others(2, 0..11, u);
    list.push_end(version, u);
    list
}

// The symbol of a half of the fourteen units; `other` for a number that is no unit.
fn symbol_of<S: Copy>(units: &[(S, S); 14], other: S, unit: u8, half: u8) -> S
    ensures { result ≡ symbol_in other units.now (unit, half) }
{
    match UnitNumber::try_from(unit) {
        Ok(unit) => {
            let (first, second) = units[unit.position()];
            if half == 1 { first } else { second }
        }
        Err(_) => other,
    }
}

// Which units stand where the given ones are missing.
pub fn standing_without(missing: &[u8]) -> [bool; 14]
    ensures { result ≡ all_without missing.now }
{
    std::array::from_fn(|p| !missing.contains(&(p as u8 + 1)))
}

// How many units stand.
pub fn count_standing(standing: &[bool; 14]) -> usize
    ensures { result ≡ count 14 (λ p. slice_index_or standing.now p false) }
{
    // a loop, since `filter` and `count` take longer than these fourteen places
    let mut seen = 0usize; // standing units among those before
    for stands in standing {
        if *stands {
            seen += 1;
        }
    }
    seen
}

// Both halves of the ten lowest standing units.
fn lowest_ten(standing: &[bool; 14]) -> FetchList
    ensures { listed result ≡ wholes 14 (lowest 10 (λ p. slice_index_or standing.now p false)) }
{
    let mut list = FetchList::new();
    let mut seen = 0usize;
    for (p, stands) in standing.iter().enumerate() {
        if *stands {
            if seen < 10 {
                list.push_whole(p);
            }
            seen += 1;
        }
    }
    list
}

// Both halves of the ten lowest standing units, and none where fewer than ten stand.
fn long(standing: &[bool; 14]) -> FetchList
    ensures { listed result ≡ long_list (λ p. slice_index_or standing.now p false) }
{
    if count_standing(standing) < 10 {
        FetchList::new()
    } else {
        lowest_ten(standing)
    }
}

// The listed halves for unit u, where `standing` says of units 1 to 14 whether they stand:
// thirteen or fourteen for a data unit that alone is missing and whose version has a short list, else both halves of
// the ten lowest standing units, and none where fewer than ten stand, where u stands or where u is no unit.
pub fn fetch_list(version: Version, standing: &[bool; 14], u: u8) -> FetchList
    ensures { listed result ≡ fetch_of version (λ p. slice_index_or standing.now p false) u }
{
    match UnitNumber::try_from(u) {
        Ok(unit) if !standing[unit.position()] => missing_list(version, standing, unit.position()),
        _ => FetchList::new(),
    }
}

// The listed halves of the missing unit at position p.
fn missing_list(version: Version, standing: &[bool; 14], p: usize) -> FetchList
    ensures { listed result ≡ listed_at version (λ p. slice_index_or standing.now p false) p }
{
    if p < 10 && is_short(version, standing, p) {
        short(version, p)
    } else {
        long(standing)
    }
}

// Whether the missing unit at position p has a short list.
pub fn is_short(version: Version, standing: &[bool; 14], p: usize) -> bool
    ensures { result ≡ short_at version (λ q. slice_index_or standing.now q false) p }
{
    version.has_short() && p < 10 && count_standing(standing) == 13
}
