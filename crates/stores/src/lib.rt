// Stores of fourteen units: what a store owes its callers, a store over lent bytes, and two stores as one.

#![tactic(auto)]

pub mod area;
mod half;
pub mod refusal;
pub mod shelves;
pub mod store;
#[cfg(test)]
mod tests;
