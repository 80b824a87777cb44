// Scan and match: the live slots of an image, listed.
#![tactic(auto)]

mod bits;
pub mod listed;
pub mod matching;
pub mod scan;
mod select;
mod wanted;
