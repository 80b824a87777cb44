// The lowest digit of a number, of five bits, by which numbers are chosen.
ghost use Rattle.std.specs.Prelude.{◌≡◌};
ghost use Rattle.digests.specs.Mixed.{mixed};

// The numbers whose bits in the lowest digit of x are 1, together by exclusive or. Of constants the compiler makes a table.
#[inline(always)]
#[tactic(auto, using(crate::proofs::Mixed::ends_in), unfolding(crate::specs::Mixed::mixed))]
pub fn mix(numbers: [u32; 5], x: u64) -> u32
    ensures { result ≡ mixed 0 numbers x }
{
    let [a, b, c, d, e] = numbers;
    match x % 32 {
        0 => 0,
        1 => a,
        2 => b,
        3 => a ^ b,
        4 => c,
        5 => a ^ c,
        6 => b ^ c,
        7 => a ^ b ^ c,
        8 => d,
        9 => a ^ d,
        10 => b ^ d,
        11 => a ^ b ^ d,
        12 => c ^ d,
        13 => a ^ c ^ d,
        14 => b ^ c ^ d,
        15 => a ^ b ^ c ^ d,
        16 => e,
        17 => a ^ e,
        18 => b ^ e,
        19 => a ^ b ^ e,
        20 => c ^ e,
        21 => a ^ c ^ e,
        22 => b ^ c ^ e,
        23 => a ^ b ^ c ^ e,
        24 => d ^ e,
        25 => a ^ d ^ e,
        26 => b ^ d ^ e,
        27 => a ^ b ^ d ^ e,
        28 => c ^ d ^ e,
        29 => a ^ c ^ d ^ e,
        30 => b ^ c ^ d ^ e,
        _ => a ^ b ^ c ^ d ^ e,
    }
}
