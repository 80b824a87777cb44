// FNV-1a of 64 bits and CRC32-C.
#![tactic(auto)]

mod bits;
mod columns;
pub mod crc;
mod digits;
pub mod fnv;
mod front;
