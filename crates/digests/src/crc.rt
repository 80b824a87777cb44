// CRC32-C (Castagnoli), a word a step, and the header's CRC.
ghost use Rattle.std.specs.Prelude.{◌≡◌, ◌≤◌, [], ◌∷◌, length};
ghost use Rattle.numbers.specs.Bytes.{part};
ghost use Rattle.digests.specs.Crc.{crc_from, crc32c, header_crc};

use crate::bits::{bits_8, bits_64, bits_512};
use crate::front::front;
use numbers::parts::all_zero;
use numbers::words::u64_at;

// The state after one more byte.
fn step(c: u32, b: u8) -> u32
    ensures { result ≡ crc_from c (b ∷ []) }
{
    bits_8((u64::from(c) ^ u64::from(b)) % 256) ^ (c / 256)
}

// The state after the bytes of a slice, one by one.
fn after_bytes(c: u32, s: &[u8]) -> u32
    ensures { result ≡ crc_from c s.now }
{
    let mut state = c;
    for b in s {
        state = step(state, *b);
    }
    state
}

// The state after the bytes of a slice, a word a step as far as there are whole ones. By index: `chunks_exact` is no plainer here, as what
// it leaves over has to be taken from it before the loop.
fn after(c: u32, s: &[u8]) -> u32
    ensures { result ≡ crc_from c s.now }
{
    let words = s.len() / 8;
    let mut state = c;
    for n in 0..words {
        state = bits_64(u64::from(state) ^ u64_at(s, 8 * n));
    }
    after_bytes(state, &s[8 * words..])
}

// The CRC of a slice.
pub fn crc32c_of(s: &[u8]) -> u32
    ensures { result ≡ crc32c s.now }
{
    after(0xFFFFFFFF, s) ^ 0xFFFFFFFF
}

// What the bytes of a header behind its front leave, from state 0 on. Most are zero in most headers.
fn rest(image: &[u8]) -> u32
    requires { 256 ≤ length image.now }
    ensures { result ≡ crc_from 0 (part image.now 0x78 136) }
{
    if all_zero(&image[0x78..0x100]) {
        return 0;
    }
    let state = after(0, &image[0x78..0xC0]);
    if all_zero(&image[0xC0..0x100]) {
        return bits_512(u64::from(state));
    }
    after(state, &image[0xC0..0x100])
}

// The CRC of a header, its generation (0x40 to 0x47) and its CRC (0x70 to 0x73) taken as zero.
pub fn header_crc(image: &[u8]) -> u32
    requires { 256 ≤ length image.now }
    ensures { result ≡ header_crc image.now }
{
    front(image) ^ rest(image) ^ 0xFFFFFFFF
}
