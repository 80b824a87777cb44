// A batch: its records, which of them decide, and the order of its new keys.
#![tactic(auto)]

pub mod batch;
pub mod decided;
mod heads;
pub mod listed;
pub mod new_keys;
mod sorting;
