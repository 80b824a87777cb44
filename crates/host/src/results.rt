// All numbers of a call, written to a lent list. Here and in all of this crate an answer is a number: it is what C is given.
ghost use Rattle.std.specs.Prelude.{◌≡◌};
ghost use Rattle.host.specs.Results.{word_of};

// How many entries each call writes.
pub const LOOKUP_RESULTS: usize = 4;

pub const FULL_CHECK_RESULTS: usize = 4;

pub const LISTING_RESULTS: usize = 3;

// A signed number as a word of 64 bits, two's complement.
pub fn word_of(x: i64) -> u64
    ensures { result ≡ word_of x }
{
    x.cast_unsigned()
}
