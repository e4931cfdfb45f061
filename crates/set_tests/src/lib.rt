// Tests of the set, under every scheme and over both stores.

#![tactic(auto)]

#[cfg(test)]
mod data;
#[cfg(test)]
mod held;
#[cfg(test)]
mod rebuilt;
#[cfg(test)]
mod runs;
#[cfg(test)]
mod sizes;
#[cfg(test)]
mod tests;
#[cfg(test)]
mod tickets;
