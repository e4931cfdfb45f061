// The set: fourteen units in a store under one scheme, with rebuilds that go half by half.

#![tactic(auto)]

pub mod calls;
pub mod changing;
mod data;
mod encoding;
pub mod filling;
mod gathering;
mod halves;
mod open_rebuild;
pub mod reading;
mod rebuilding;
pub mod rebuilds;
pub mod refusal;
mod room;
pub mod set;
pub mod ticket;
