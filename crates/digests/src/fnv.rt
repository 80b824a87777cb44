// FNV-1a of 64 bits.
ghost use Rattle.std.specs.Prelude.{◌≡◌};
ghost use Rattle.digests.specs.Fnv.{fnv1a64};

// The hash of no bytes.
const BASIS: u64 = 14695981039346656037;

// What it is multiplied by for each byte.
const PRIME: u64 = 1099511628211;

// The hash of the bytes of a slice.
pub fn fnv1a64_of(s: &[u8]) -> u64
    ensures { result ≡ fnv1a64 s.now }
{
    let mut h = BASIS;
    for b in s {
        h = (h ^ u64::from(*b)).wrapping_mul(PRIME);
    }
    h
}
