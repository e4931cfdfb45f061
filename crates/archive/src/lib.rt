// The archive: the reference model of a set, the law over everything that can be done with a set, and a call that runs calls.

#![tactic(auto)]

pub mod figures;
pub mod noting;
pub mod order;
pub mod place;
pub mod serve;
