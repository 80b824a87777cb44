// Applying a batch that passed every test.
#![tactic(auto)]

pub mod apply;
mod counts;
