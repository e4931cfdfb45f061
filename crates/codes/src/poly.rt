// The base code POLY, whose parities are the remainder of a polynomial division.
ghost use Rattle.std.specs.Prelude.{◌≡◌, length};
ghost use Rattle.tables.proofs.TwoCodes.{poly_sound};
ghost use Rattle.tables.specs.Multipliers.{entry, poly};
ghost use Rattle.codes.specs.Columns.{parities};

use crate::base::BaseCode;
use crate::refusal::Refusal;
use tables::known::poly_table;
use tables::table::Table;

#[derive(Clone, Copy)]
pub struct Poly {
    table: Table,
    ghost fixed: { table ≡ poly },
}

impl Poly {
    pub fn new() -> Poly {
        Poly {
            table: poly_table(),
        }
    }
}

impl BaseCode for Poly {
    ghost table = { λ _. poly };

    ghost sound = { λ _. poly_sound };

    fn table(&self) -> Table {
        self.table
    }

    // Works the column by the division.
    fn column(&self, bytes: &[u8], place: &mut [u8]) -> Result<(), Refusal> {
        if bytes.len() != 10 || place.len() != 4 {
            return Err(Refusal::WrongLength);
        }
        place.copy_from_slice(&remainder(bytes));
        Ok(())
    }
}

// The coefficients of X^3, X^2, X and 1 in the remainder of d1 X^13 + … + d10 X^4 by X^4 + 15 X^3 + 54 X^2 + 120 X + 64:
// the dividend is taken in from its highest coefficient on, and each time the quotient's next coefficient takes a multiple of the divisor away.
fn remainder(bytes: &[u8]) -> [u8; 4]
    requires { length bytes.now ≡ 10 }
    ensures { result ≡ parities (entry poly) bytes.now }
{
    let mut x3 = 0u8;
    let mut x2 = 0u8;
    let mut x1 = 0u8;
    let mut x0 = 0u8;
    for d in bytes {
        let q = x3 ^ *d;
        x3 = x2 ^ field::mul(15, q);
        x2 = x1 ^ field::mul(54, q);
        x1 = x0 ^ field::mul(120, q);
        x0 = field::mul(64, q);
    }
    [x3, x2, x1, x0]
}
