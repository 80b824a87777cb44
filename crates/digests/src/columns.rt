// What bits of CRC32-C make of a number, looked up by its digits of five bits.
ghost use Rattle.std.specs.Prelude.{◌≡◌, ◌+◌, ◌*◌, ◌/◌, ◌%◌, ◌^◌, ◌<◌, ◌≤◌, slice_index_or, []};
ghost use Rattle.digests.specs.Columns.{columns};
ghost use Rattle.digests.specs.Crc.{crc_bits};
ghost use Rattle.digests.specs.Mixed.{mixed};

use crate::bits::by_bits;
use crate::digits::mix;

// What so many bits of CRC32-C make of each bit of a number, the lowest first, five to a digit.
#[derive(Drop)]
pub struct Columns<const BITS: usize, const DIGITS: usize> {
    pub digits: [[u32; 5]; DIGITS],
    ghost few: { DIGITS ≤ 7 },
    ghost images: { digits ≡ columns BITS DIGITS },
}

impl<const BITS: usize, const DIGITS: usize> Columns<BITS, DIGITS> {
    // What the digit of x at a place adds, if it is one of these.
    #[inline(always)]
    fn digit(&self, place: usize, x: u64) -> u32
        requires { place < 7 }
        ensures { result ≡ mixed 0 (slice_index_or self.now.digits place []) (x / 2 ^ (5 * place)) }
    {
        if DIGITS <= place {
            return 0;
        }
        mix(self.digits[place], x >> (5 * place))
    }

    // What the bits make of these digits of x. One by one: of a loop over them the compiler makes no tables.
    #[inline(always)]
    pub fn mix(&self, x: u64) -> u32
        ensures { result ≡ crc_bits BITS (x % 2 ^ (5 * DIGITS)) }
    {
        self.digit(0, x)
            ^ self.digit(1, x)
            ^ self.digit(2, x)
            ^ self.digit(3, x)
            ^ self.digit(4, x)
            ^ self.digit(5, x)
            ^ self.digit(6, x)
    }

    // What they make of x: bit by bit where it has a digit that is none of these.
    #[inline(always)]
    pub fn of(&self, x: u64) -> u32
        requires { 32 ≤ BITS }
        ensures { result ≡ crc_bits BITS x }
    {
        if 0 < x >> (5 * DIGITS) {
            return by_bits(x, BITS);
        }
        self.mix(x)
    }
}

// What bits make of a word, by its 35 low bits and the 29 others, which 35 of the bits bring down.
#[inline(always)]
pub fn of_word<const BITS: usize, const HIGH: usize>(
    low: &Columns<BITS, 7>,
    high: &Columns<HIGH, 6>,
    x: u64,
) -> u32
    requires { BITS ≡ 35 + HIGH }
    ensures { result ≡ crc_bits BITS x }
{
    let first = low.mix(x);
    let rest = x >> 35;
    if rest == 0 {
        return first;
    }
    first ^ high.mix(rest)
}
