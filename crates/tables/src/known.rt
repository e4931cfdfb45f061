// The two tables in use. Each keeps the law of a base code: any ten of the fourteen positions determine the column.
ghost use Rattle.std.specs.Prelude.{◌≡◌};
ghost use Rattle.tables.specs.Codewords.{Sound, Plain};
ghost use Rattle.tables.specs.Multipliers.{entry, cauchy, poly};

use crate::table::{Row, Table};

// The multipliers of CAUCHY, whose second row is ten ones.
pub fn cauchy_table() -> Table
    ensures value { result ≡ cauchy }
    ensures sound { Sound (entry cauchy) }
    ensures plain { Plain (entry cauchy) }
{
    Table {
        rows: [
            Row {
                at: [220, 153, 172, 156, 92, 151, 60, 171, 143, 245],
            },
            Row {
                at: [1, 1, 1, 1, 1, 1, 1, 1, 1, 1],
            },
            Row {
                at: [178, 112, 143, 196, 101, 245, 40, 238, 201, 83],
            },
            Row {
                at: [218, 143, 82, 210, 104, 200, 118, 245, 244, 142],
            },
        ],
    }
}

// The multipliers of POLY.
pub fn poly_table() -> Table
    ensures value { result ≡ poly }
    ensures sound { Sound (entry poly) }
{
    Table {
        rows: [
            Row {
                at: [246, 226, 254, 119, 218, 167, 84, 92, 99, 15],
            },
            Row {
                at: [82, 33, 129, 57, 213, 217, 140, 7, 87, 54],
            },
            Row {
                at: [135, 179, 242, 203, 188, 219, 71, 191, 210, 120],
            },
            Row {
                at: [34, 113, 140, 132, 178, 164, 158, 229, 231, 64],
            },
        ],
    }
}
