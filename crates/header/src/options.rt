// What a caller says of the image that it lends.
ghost use Rattle.std.specs.Prelude.{◌≡◌};
ghost use Rattle.header.specs.Bench.{bench_options};

// Any numbers may be passed; the header test refuses those outside the sizes.
#[derive(Clone, Copy)]
pub struct Options {
    pub key_size: u64,
    pub index_size: u64,
    pub slot_capacity: u64,
    pub user_version: u64,
    // 0 or 1. C may pass any number, here and as the role, so they are no `bool` and no enum: the first test refuses the others
    pub ordered: u64,
    // 0: no writer known. 1: another writer is active. 2: the caller holds the lock
    pub role: u64,
}

// The options of the bench: key 12, index 20, capacity 512, user_version 1, unordered.
pub fn bench(role: u64) -> Options
    ensures { result ≡ bench_options role }
{
    Options {
        key_size: 12,
        index_size: 20,
        slot_capacity: 512,
        user_version: 1,
        ordered: 0,
        role,
    }
}
