// Judging a batch and committing it.
#![tactic(auto)]

pub mod commit;
mod further;
mod turns;
