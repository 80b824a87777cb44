// The sizes allowed, and the sizes and offsets that follow from them.
ghost use Rattle.std.specs.Prelude.{true, ◌≡◌, ◌+◌, ◌^◌, ◌≤◌, ◌<◌};
ghost use Rattle.header.specs.Sizes.{align8 as aligned, slot_size, bucket_count, buckets_offset, total_size, sizes_to_open, sizes_to_create, capacity_fits, most_key_size, most_index_size, most_slot_capacity};

use crate::options::Options;

pub const MOST_KEY_SIZE: u64 = 64;

const MOST_INDEX_SIZE: u64 = 256;

pub const MOST_SLOT_CAPACITY: u64 = 1048576;

pub const MOST_BUCKET_COUNT: u64 = 4194304;

// Whether an image may be opened with the sizes of the options. Capacity 0 is what the header says.
pub fn sizes_to_open(o: Options) -> bool
    ensures { result ≡ sizes_to_open o }
{
    (1 <= o.key_size)
        & (o.key_size <= MOST_KEY_SIZE)
        & (o.index_size <= MOST_INDEX_SIZE)
        & (o.slot_capacity <= MOST_SLOT_CAPACITY)
}

// Whether one may be created with them.
pub fn sizes_to_create(o: Options) -> bool
    ensures { result ≡ sizes_to_create o }
{
    sizes_to_open(o) & (1 <= o.slot_capacity)
}

// Whether a header's capacity is as the option says; option 0 takes any that an image may have.
pub fn capacity_fits(option: u64, capacity: u64) -> bool
    ensures { result ≡ capacity_fits option capacity }
{
    if option == 0 {
        return (1 <= capacity) & (capacity <= MOST_SLOT_CAPACITY);
    }
    capacity == option
}

// The next multiple of 8.
#[tactic(auto, unfolding(crate::specs::Sizes::align8))]
pub fn align8(n: u64) -> u64
    requires { n + 7 < 2 ^ 64 }
    ensures { result ≡ aligned n }
{
    n.next_multiple_of(8)
}

// The size of a slot: meta, key, revision and index, with zeros to a multiple of 8 behind key and index.
pub fn slot_size(key_size: u64, index_size: u64) -> u64
    requires { (key_size ≤ most_key_size) × (index_size ≤ most_index_size) }
    ensures { result ≡ slot_size key_size index_size }
{
    8 + align8(key_size) + 8 + align8(index_size)
}

// The smallest power of two that is at least twice the slot capacity.
pub fn bucket_count(slot_capacity: u64) -> u64
    requires { slot_capacity ≤ most_slot_capacity }
    ensures { result ≡ bucket_count slot_capacity }
{
    (2 * slot_capacity).next_power_of_two()
}

// Where the buckets begin, behind the header and the slots.
pub fn buckets_offset(slot_capacity: u64, slot_size: u64) -> u64
    requires { buckets_offset slot_capacity slot_size < 2 ^ 64 }
    ensures { result ≡ buckets_offset slot_capacity slot_size }
{
    256 + slot_capacity * slot_size
}

// The size of a whole image as create makes it: the header, the slots and the buckets.
pub fn total_size(o: Options) -> u64
    requires { sizes_to_create o ≡ true }
    ensures { result ≡ total_size o }
{
    let slot = slot_size(o.key_size, o.index_size);
    buckets_offset(o.slot_capacity, slot) + 16 * bucket_count(o.slot_capacity)
}
