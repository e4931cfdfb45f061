// Tests of rebuilding: every pattern of one to four missing units under every scheme.

#![tactic(auto)]

#[cfg(test)]
mod tests;
