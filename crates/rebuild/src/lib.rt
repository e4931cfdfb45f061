// Solving any ten of the fourteen positions, and rebuilding a lost unit from its listed halves.

#![tactic(auto)]

mod columns;
mod data;
mod gather;
pub mod plan;
mod positions;
pub mod rebuild;
pub mod refusal;
mod short;
pub mod solver;
pub mod solving;
mod tableau;
