// The forty multipliers of a base code, and the tables of CAUCHY and POLY with the law that they keep.

#![tactic(auto)]

pub mod known;
pub mod table;
