// Base codes: what a code means, the law that it keeps, and its calls.
ghost use Rattle.std.specs.Prelude.{◌≡◌, ◌<◌, [], length, if◌then◌else◌, bit_xor, get_or, slice_index};
ghost use Rattle.field.specs.Arithmetic.{gmul};
ghost use Rattle.field.specs.Space.{dot};
ghost use Rattle.tables.specs.Codewords.{Sound, Plain};
ghost use Rattle.codes.specs.Columns.{column_fits, parities, column_answer};
ghost use Rattle.tables.specs.Multipliers.{entry, multiplier_of, row};
ghost use Rattle.tables.specs.declared.table.Table.{Table as Multipliers};

use crate::refusal::Refusal;
use field::symbol::sum_of_products;
use tables::table::{Row, Table};

pub trait BaseCode {
    // The forty multipliers, which never change.
    ghost table: { Self → Multipliers };

    // They are bytes and keep the law: any ten positions determine the column.
    ghost sound: { (c : Self) → Sound (entry (table c)) };

    fn table(&self) -> Table
        ensures { result ≡ table self.now };

    // The multiplier of data j in parity l, and 0 where there is none.
    fn multiplier(&self, l: u8, j: u8) -> u8
        ensures { result ≡ multiplier_of (entry (table self.now)) l j }
    {
        self.table().multiplier(l, j)
    }

    // Writes the four parities of ten bytes into a place of four.
    fn column(&self, bytes: &[u8], place: &mut [u8]) -> Result<(), Refusal>
        ensures answer { result ≡ column_answer bytes.now place.old }
        ensures written { place.new ≡ (if column_fits bytes.now place.old then parities (entry (table self.now)) bytes.now else place.old) }
    {
        if bytes.len() != 10 || place.len() != 4 {
            return Err(Refusal::WrongLength);
        }
        place.copy_from_slice(&row_sums(&self.table(), bytes));
        Ok(())
    }
}

pub trait PlainSecond: BaseCode {
    // The second row: ten ones.
    fn second_row(&self) -> Row
        ensures held { result ≡ get_or (Self.BaseCode.table self.now).rows 1 (record { at = [] }) }
        ensures value { result ≡ row (entry (Self.BaseCode.table self.now) 1) }
        ensures ones { Plain (entry (Self.BaseCode.table self.now)) };

    ghost plain: { (c : Self) → Plain (entry (Self.BaseCode.table c)) };
}

// The four parities of ten bytes, each as the sum over its row.
fn row_sums(table: &Table, bytes: &[u8]) -> [u8; 4]
    requires { length bytes.now ≡ 10 }
    ensures { result ≡ parities (entry table.now) bytes.now }
{
    std::array::from_fn(
        |l|
            requires { (l < 4) × (length bytes.now ≡ 10) }
        { row_sum(&table.rows[l], bytes) },
    )
}

// One of them.
fn row_sum(row: &Row, bytes: &[u8]) -> u8
    requires { length bytes.now ≡ 10 }
    ensures { result ≡ dot 0 bit_xor gmul 10 (λ k. get_or row.now.at k 0) (λ k. slice_index bytes.now k) }
{
    sum_of_products(&row.at, bytes)
}
