// Base codes of ten data and four parity positions, and the four versions over them.

#![tactic(auto)]

pub mod base;
pub mod cauchy;
pub mod encode;
pub mod encoder;
pub mod fetch;
pub mod forms;
pub mod list;
pub mod poly;
pub mod refusal;
pub mod scheme;
pub mod version;
