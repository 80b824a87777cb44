// Every call for a host in C: plain numbers and byte slices, a call for each number and one for all.
// The six numbers of the options go through every call side by side: the C interface and theorem Exports of demands hold them.
#![tactic(auto)]

pub mod age;
pub mod check;
pub mod digest;
pub mod extent;
pub mod list;
pub mod lookup;
pub mod open;
mod results;
pub mod sizes;
pub mod write;
