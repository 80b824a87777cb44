// The library for C: each call of host under its own name, with its contract, and nothing else.
#![tactic(auto)]

pub mod age;
pub mod check;
pub mod digest;
pub mod extent;
pub mod list;
pub mod lookup;
pub mod open;
pub mod sizes;
pub mod write;
