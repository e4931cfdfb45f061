// The fourteen units of a set and their numbers, from 1.

#![tactic(auto)]

mod naming;
pub mod number;
