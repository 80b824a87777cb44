// An SLC1 image written: create and the state calls.
#![tactic(auto)]

pub mod create;
pub mod fields;
pub mod judge;
pub mod state;
