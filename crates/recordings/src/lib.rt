// Recordings as they are kept: how one is cut into sets, and how long the link takes for what is fetched.

#![tactic(auto)]

pub mod cutting;
pub mod link;
