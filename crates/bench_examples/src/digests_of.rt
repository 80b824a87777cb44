// Published vectors of FNV-1a 64 and CRC32-C.
use crate::print;
use digests::crc::crc32c_of;
use digests::fnv::fnv1a64_of;
use std::io;

// Thirty-two bytes from a first one on, each a step above the one before, modulo 256.
fn run(first: u8, step: u8) -> [u8; 32] {
    let mut bytes = [0u8; 32];
    let mut next = first;
    for byte in bytes.iter_mut() {
        *byte = next;
        next = next.wrapping_add(step);
    }
    bytes
}

fn fnv1a64(rt: &impl Print, label: &[u8], bytes: &[u8]) -> io::Result<()> {
    print::hex(rt, label, fnv1a64_of(bytes), 16)
}

fn crc32c(rt: &impl Print, label: &[u8], bytes: &[u8]) -> io::Result<()> {
    print::hex(rt, label, u64::from(crc32c_of(bytes)), 8)
}

pub fn vectors(rt: &impl Print) -> io::Result<()> {
    fnv1a64(rt, b"fnv1a64 of nothing", b"")?;
    fnv1a64(rt, b"fnv1a64 of a", b"a")?;
    fnv1a64(rt, b"fnv1a64 of foobar", b"foobar")?;
    crc32c(rt, b"crc32c of 123456789", b"123456789")?;
    let zeros = run(0, 0);
    crc32c(rt, b"crc32c of 32 zeros", &zeros)?;
    let ones = run(255, 0);
    crc32c(rt, b"crc32c of 32 bytes of ones", &ones)?;
    let rising = run(0, 1);
    crc32c(rt, b"crc32c of 0 to 31", &rising)?;
    let falling = run(31, 255);
    crc32c(rt, b"crc32c of 31 to 0", &falling)
}
