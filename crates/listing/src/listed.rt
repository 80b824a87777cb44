// What a listing gives back.

// How many slots are wanted, and how many of their numbers were written.
#[derive(Clone, Copy)]
pub struct Listing {
    pub total: u64,
    pub written: u64,
}
