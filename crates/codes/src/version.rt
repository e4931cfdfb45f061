// How the four parities of a filling are made of its first and second halves.
ghost use Rattle.std.specs.Prelude.{◌≡◌, ◌<◌, ◌≤◌, MatchOption};
ghost use Rattle.codes.specs.Spans.{Run};
ghost use Rattle.codes.specs.Lists.{home as home_of, has_short as short_in};
ghost use Rattle.codes.specs.Versions.{mixed as has_second};

use std::ops::Range;

#[derive(Clone, Copy, PartialEq, Eq, Debug)]
pub enum Version {
    Rs,
    Xor,
    XorPlus,
    NonXor,
}

impl Version {
    // Whether the first symbol of parity l, from 0, has the second added.
    pub fn mixed(self, l: usize) -> bool
        ensures { result ≡ has_second self l }
    {
        match self {
            Version::Rs | Version::Xor => false,
            Version::XorPlus | Version::NonXor => l == 1,
        }
    }

    // Whether it has short lists.
    pub fn has_short(self) -> bool
        ensures { result ≡ short_in self }
    {
        self != Version::Rs
    }

    // The positions of the group of parity l, from 0.
    pub(crate) fn group(self, l: usize) -> Range<usize>
        ensures { Run self l result.start result.end }
    {
        match (self, l) {
            (Version::Rs, _) => 0..0,
            (_, 1) => 0..3,
            (_, 2) => 3..6,
            (Version::Xor, 3) => 6..10,
            (Version::XorPlus, 3) => 6..9,
            (Version::NonXor, 3) => 6..9,
            _ => 0..0,
        }
    }

    // The parity, from 0, whose group has the data position u.
    pub fn home(self, u: usize) -> Option<usize>
        ensures { MatchOption result (home_of self u ≡ 0) (λ l. (home_of self u ≡ l) × ((1 ≤ l) × (l < 4))) }
    {
        match (self, u) {
            (Version::Rs, _) => None,
            (_, 0..3) => Some(1),
            (_, 3..6) => Some(2),
            (_, 6..9) => Some(3),
            (Version::Xor, 9) => Some(3),
            _ => None,
        }
    }
}
