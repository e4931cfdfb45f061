// What a unit is made by: a version over the forty multipliers of a base code.
use crate::version::Version;
use tables::table::Table;

#[derive(Clone, Copy)]
pub struct Encoder {
    pub version: Version,
    pub table: Table,
}
