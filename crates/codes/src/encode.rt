// Encoding: the two symbols of a unit at one byte position, of any kind of symbol.
ghost use Rattle.std.specs.Prelude.{◌≡◌, ◌+◌, ◌-◌, ◌<◌, get_or, if◌then◌else◌, nat_lt, slice_index_or};
ghost use Rattle.tables.specs.Codewords.{parity};
ghost use Rattle.tables.specs.Multipliers.{entry};
ghost use Rattle.codes.specs.Lists.{without};
ghost use Rattle.codes.specs.Versions.{group, over, share, piggyback, parity_first, parity_second, units, encoded};

use crate::encoder::Encoder;
use crate::refusal::Refusal;
use crate::scheme::Scheme;
use crate::version::Version;
use field::symbol::{Symbol, sum_of_products};
use std::ops::Range;
use units::number::UnitNumber;

// The two symbols of unit u, from the ten first symbols a and the ten second symbols b.
pub fn encode_unit<V: Scheme, S: Symbol + Copy>(
    scheme: &V,
    a: &[S; 10],
    b: &[S; 10],
    u: u8,
) -> Result<(S, S), Refusal>
    ensures { result ≡ encoded S.zero S.sum S.times (V.version scheme.now) (V.table scheme.now) a.now b.now u }
{
    scheme.encoder().encode(a, b, u)
}

impl Encoder {
    // The same.
    pub fn encode<S: Symbol + Copy>(
        &self,
        a: &[S; 10],
        b: &[S; 10],
        u: u8,
    ) -> Result<(S, S), Refusal>
        ensures { result ≡ encoded S.zero S.sum S.times self.now.version self.now.table a.now b.now u }
    {
        let unit = UnitNumber::try_from(u)?;
        Ok(self.unit(a, b, unit))
    }

    // The same of a number that is one of a unit.
    pub fn unit<S: Symbol + Copy>(&self, a: &[S; 10], b: &[S; 10], unit: UnitNumber) -> (S, S)
        ensures { result ≡ units S.zero S.sum S.times self.now.version (entry self.now.table) (λ k. slice_index_or a.now k S.zero) (λ k. slice_index_or b.now k S.zero) unit.number }
    {
        let k = unit.position();
        if k < 10 {
            (a[k], b[k])
        } else {
            self.parity_unit(a, b, k - 10)
        }
    }

    // The two symbols of the unit of parity l, from 0.
    fn parity_unit<S: Symbol + Copy>(&self, a: &[S; 10], b: &[S; 10], l: usize) -> (S, S)
        requires { l < 4 }
        ensures first { result.0 ≡ parity_first S.zero S.sum S.times self.now.version (entry self.now.table) (λ k. get_or a.now k S.zero) (λ k. get_or b.now k S.zero) l }
        ensures second { result.1 ≡ parity_second S.zero S.sum S.times self.now.version (entry self.now.table) (λ k. get_or a.now k S.zero) (λ k. get_or b.now k S.zero) l }
    {
        let plain = self.parity(a, l);
        let second = self.parity(b, l).sum(self.added(a, l));
        let first = if self.version.mixed(l) {
            plain.sum(second)
        } else {
            plain
        };
        (first, second)
    }

    // Parity l of ten symbols, from 0; zero where there is no such parity.
    pub fn parity<S: Symbol + Copy>(&self, x: &[S; 10], l: usize) -> S
        ensures { result ≡ (if nat_lt l 4 then parity S.zero S.sum S.times (entry self.now.table) l (λ k. get_or x.now k S.zero) else S.zero) }
    {
        match self.table.rows.get(l) {
            Some(row) => sum_of_products(&row.at, x),
            None => S::zero(),
        }
    }

    // What the second symbol of parity l, from 0, has of the first symbols.
    pub fn added<S: Symbol + Copy>(&self, a: &[S; 10], l: usize) -> S
        ensures { result ≡ piggyback S.zero S.sum S.times self.now.version (entry self.now.table) (λ k. get_or a.now k S.zero) l }
    {
        self.added_without(a, l, 10)
    }

    // The same without the share of the data position u; a symbol that the slice lacks counts as zero.
    pub fn added_without<S: Symbol + Copy>(&self, a: &[S], l: usize, u: usize) -> S
        ensures { result ≡ over S.zero S.sum (without u (group self.now.version l)) (λ j. share S.zero S.sum S.times self.now.version (entry self.now.table) j (slice_index_or a.now j S.zero)) }
    {
        // the positions of the group, summed from the last on; of the reversed range itself a proof would know no position
        let Range { start, end } = self.version.group(l);
        let mut total = S::zero();
        for j in (start..end).rev() {
            if j != u {
                let symbol = a.get(j).copied().unwrap_or(S::zero());
                total = self.share(j, symbol).sum(total);
            }
        }
        total
    }

    // What a member of a group adds to a second symbol.
    fn share<S: Symbol + Copy>(&self, j: usize, x: S) -> S
        requires { j < 10 }
        ensures { result ≡ share S.zero S.sum S.times self.now.version (entry self.now.table) j x }
    {
        match self.version {
            Version::NonXor => x.times(self.table.rows[1].at[j]),
            _ => x,
        }
    }
}
