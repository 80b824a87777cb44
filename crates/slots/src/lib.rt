// The writes that a commit is made of.
#![tactic(auto)]

pub mod slots;
