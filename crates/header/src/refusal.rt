// Why a call is refused, and the numbers given back.
ghost use Rattle.std.specs.Prelude.{◌≡◌, [], ◌∷◌};
ghost use Rattle.header.specs.Answer.{number, answer};
ghost use Rattle.header.specs.FirstOf.{first_of};

// The number of a call that is done.
pub const DONE: u32 = 0;

// Why a call is refused; each kind has the number that it gives back. 8 is unused.
#[derive(Clone, Copy, Debug, PartialEq, Eq)]
pub enum Refusal {
    NeedsRebuild = 1,
    Incompatible = 2,
    Invalidated = 3,
    Busy = 4,
    Full = 5,
    OutOfOrder = 6,
    InvalidInput = 7,
    NotPresent = 9,
    CreateIt = 10,
    TooShort = 11,
}

impl Refusal {
    // The number that it gives back.
    pub fn number(self) -> u32
        ensures { result ≡ number self }
    {
        self as u32
    }
}

// The number given back: 0, or that of the refusal.
pub fn number_of<T>(done: &Result<T, Refusal>) -> u32
    ensures { result ≡ answer done.now }
{
    match done {
        Ok(_) => DONE,
        Err(refusal) => refusal.number(),
    }
}

// Refuses where a test holds.
pub fn refuse_if(holds: bool, refusal: Refusal) -> Result<(), Refusal>
    ensures { answer result ≡ first_of ((holds, number refusal) ∷ []) }
{
    if holds { Err(refusal) } else { Ok(()) }
}
