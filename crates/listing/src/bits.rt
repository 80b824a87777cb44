// Match of bits: the first bits of a pattern against a key from a byte offset on.
ghost use Rattle.std.specs.Prelude.{◌≡◌, ◌/◌, ◌-◌, ◌^◌, ◌<◌, eqb, length};
ghost use Rattle.listing.specs.Match.{agrees};
ghost use Rattle.listing.specs.Select.{RightPattern};

// Whether the upper bits of two bytes are the same.
fn same_upper(x: u8, y: u8, bits: usize) -> bool
    requires { (0 < bits) × (bits < 8) }
    ensures { result ≡ eqb (x / 2 ^ (8 - bits)) (y / 2 ^ (8 - bits)) }
{
    let spare = 8 - bits;
    x >> spare == y >> spare
}

// Whether the first bits of the key from the offset on are the pattern's: whole bytes, then the upper bits of the last.
pub fn agrees_at(key: &[u8], offset: usize, bits: usize, pattern: &[u8]) -> bool
    requires { RightPattern (length key.now) offset bits pattern.now }
    ensures { result ≡ agrees offset bits pattern.now key.now }
{
    let whole = bits / 8;
    let left = bits % 8;
    if key[offset..offset + whole] != pattern[..whole] {
        return false;
    }
    left == 0 || same_upper(key[offset + whole], pattern[whole], left)
}
