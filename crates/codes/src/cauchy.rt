// The base code CAUCHY, whose second row is ten ones.
ghost use Rattle.std.specs.Prelude.{◌≡◌};
ghost use Rattle.tables.proofs.TwoCodes.{cauchy_sound, cauchy_plain};
ghost use Rattle.tables.specs.Multipliers.{cauchy};

use crate::base::{BaseCode, PlainSecond};
use tables::known::cauchy_table;
use tables::table::{Row, Table};

// POLY has the same two members, and another law and column: no generic code says both.
#[derive(Clone, Copy)]
pub struct Cauchy {
    table: Table,
    ghost fixed: { table ≡ cauchy },
}

impl Cauchy {
    pub fn new() -> Cauchy {
        Cauchy {
            table: cauchy_table(),
        }
    }
}

impl BaseCode for Cauchy {
    ghost table = { λ _. cauchy };

    ghost sound = { λ _. cauchy_sound };

    fn table(&self) -> Table {
        self.table
    }
}

impl PlainSecond for Cauchy {
    ghost plain = { λ c. cauchy_plain };

    fn second_row(&self) -> Row {
        cauchy_table().rows[1]
    }
}
