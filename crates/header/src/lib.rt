// The SLC1 header: its fields, the sizes that follow from it, and the header test.
#![tactic(auto)]

pub mod extent;
pub mod fields;
pub mod judge;
pub mod open;
pub mod options;
mod points;
pub mod refusal;
pub mod shape;
pub mod sizes;
pub mod state;
