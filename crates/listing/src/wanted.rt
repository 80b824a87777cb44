// Which keys a listing wants: the tests that a key can be put to.
ghost use Rattle.std.specs.Prelude.{◌≡◌, ℕ, Bool, true, List, length};
ghost use Rattle.listing.specs.Match.{agrees};
ghost use Rattle.listing.specs.Select.{RightPattern};

use crate::bits::agrees_at;

// A test of keys. It is a trait and no closure, so that a contract can name the test.
pub trait Wanted {
    // which keys pass
    ghost test: { Self → List ℕ → Bool };

    // whether keys of a size can be put to it
    ghost takes: { Self → ℕ → Type 0 } = { λ _ _. Unit {0} };

    // Whether a key passes.
    fn passes(&self, key: &[u8]) -> bool
        requires { takes self.now (length key.now) }
        ensures { result ≡ test self.now key.now };
}

// Every key.
#[derive(Clone, Copy)]
pub struct All {}

impl Wanted for All {
    ghost test = { λ _ key. true };

    fn passes(&self, _key: &[u8]) -> bool {
        true
    }
}

// The keys that have a pattern's bits from a byte offset on.
#[derive(Clone, Copy)]
pub struct Bits<'a> {
    pub offset: usize,
    pub bits: usize,
    pub pattern: &'a [u8],
}

impl Wanted for Bits<'_> {
    ghost test = { λ b. agrees b.offset b.bits b.pattern.now };

    ghost takes = { λ b size. RightPattern size b.offset b.bits b.pattern.now };

    fn passes(&self, key: &[u8]) -> bool {
        agrees_at(key, self.offset, self.bits, self.pattern)
    }
}
