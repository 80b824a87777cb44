// Little-endian words in byte slices, and a word as a signed number.
ghost use Rattle.std.specs.Prelude.{◌≡◌, ◌+◌, ◌<◌, ◌≤◌, length};
ghost use Rattle.numbers.specs.Bytes.{part, word, bytes_of, put};
ghost use Rattle.numbers.specs.Signed.{signed};

use crate::parts::copy_to;

// The word of four bytes at an offset.
pub fn u32_at(s: &[u8], at: usize) -> u32
    requires { at + 4 ≤ length s.now }
    ensures { result ≡ word (part s.now at 4) }
{
    u32::from_le_bytes(s[at..at + 4].try_into().unwrap())
}

// The word of eight bytes at an offset.
pub fn u64_at(s: &[u8], at: usize) -> u64
    requires { at + 8 ≤ length s.now }
    ensures { result ≡ word (part s.now at 8) }
{
    u64::from_le_bytes(s[at..at + 8].try_into().unwrap())
}

// A word as a signed number: from 2^63 on it is negative, and all ones is -1.
pub fn signed_of(x: u64) -> i64
    ensures { result ≡ signed x }
{
    x.cast_signed()
}

// Puts the four bytes of a word at an offset.
pub fn put_u32(s: &mut [u8], at: usize, x: u32)
    requires { at + 4 ≤ length s.old }
    ensures { s.new ≡ put s.old at (bytes_of 4 x) }
{
    copy_to(s, at, &u32::to_le_bytes(x));
}

// Puts the eight bytes of a word at an offset.
pub fn put_u64(s: &mut [u8], at: usize, x: u64)
    requires { at + 8 ≤ length s.old }
    ensures { s.new ≡ put s.old at (bytes_of 8 x) }
{
    copy_to(s, at, &u64::to_le_bytes(x));
}
