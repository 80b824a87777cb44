// Match: the live slots whose keys agree with a pattern of bits.
ghost use Rattle.std.specs.Prelude.{◌≡◌, not, ◌||◌, ◌+◌, ◌/◌, ◌≤◌, eqb, ltb, length};
ghost use Rattle.header.specs.Sizes.{most_key_size};
ghost use Rattle.listing.specs.Scan.{Lists};
ghost use Rattle.listing.specs.Match.{bits_compared, match_in, match_of};

use crate::listed::Listing;
use crate::select::select;
use crate::wanted::Bits;
use header::options::Options;
use header::refusal::{Refusal, refuse_if};
use image::table::Image;

// Whether the pattern has not exactly the bytes needed for one bit or more.
fn length_wrong(bits: u64, pattern: &[u8]) -> bool
    ensures { result ≡ (eqb bits 0 || not (eqb (length pattern.now) ((bits + 7) / 8))) }
{
    bits == 0 || pattern.len() as u64 != bits.div_ceil(8)
}

// Whether the pattern runs past a key of this size from the offset on. No sum is formed.
fn runs_past(size: usize, offset: u64, pattern: &[u8]) -> bool
    ensures { result ≡ ltb size (offset + length pattern.now) }
{
    let length = pattern.len();
    size < length || ((size - length) as u64) < offset
}

// How many bits are compared: as many as are asked for, and with 0 all that the pattern has.
fn bits_compared(bits: u64, pattern: &[u8]) -> u64
    requires { length pattern.now ≤ most_key_size }
    ensures { result ≡ bits_compared bits pattern.now }
{
    if bits == 0 {
        8 * (pattern.len() as u64)
    } else {
        bits
    }
}

// The match in an image that passed the header test.
fn match_in(
    image: &Image,
    offset: u64,
    bits: u64,
    pattern: &[u8],
    skip: u64,
    limit: u64,
    numbers: &mut [u32],
) -> Result<Listing, Refusal>
    ensures { Lists (match_in image.now.shape image.now.bytes.now offset (bits_compared bits pattern.now) pattern.now skip limit numbers.old) result numbers.new }
{
    refuse_if(
        runs_past(image.shape.layout.key_size, offset, pattern),
        Refusal::InvalidInput,
    )?;
    let compared = bits_compared(bits, pattern);
    refuse_if(length_wrong(compared, pattern), Refusal::InvalidInput)?;
    let wanted = Bits {
        offset: offset as usize,
        bits: compared as usize,
        pattern,
    };
    select(image, &wanted, skip, limit, numbers)
}

// Lists the live slots of an image whose keys have the pattern's bits, most significant first, from a byte offset on, and with 0
// bits the whole pattern: their numbers, ascending, after a skip and up to a limit. Entries past those written, and the whole list
// where the call is refused, are unchanged.
pub fn match_bits(
    image: &[u8],
    o: Options,
    offset: u64,
    bits: u64,
    pattern: &[u8],
    skip: u64,
    limit: u64,
    numbers: &mut [u32],
) -> Result<Listing, Refusal>
    ensures { Lists (match_of o image.now offset bits pattern.now skip limit numbers.old) result numbers.new }
{
    let image = Image::open(image, o)?;
    match_in(&image, offset, bits, pattern, skip, limit, numbers)
}
