// An SLC1 image read: lookup and the full check.
#![tactic(auto)]

pub mod check;
pub mod lookup;
pub mod probe;
pub mod table;
