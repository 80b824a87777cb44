// Little-endian words, parts of byte slices and the age of a revision.
#![tactic(auto)]

pub mod age;
pub mod parts;
pub mod words;
