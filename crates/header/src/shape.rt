// What the header test hands on of an image that passes it: every number that later code needs.

// Where slots and buckets lie, and whether keys are in order. No call after create changes it.
#[derive(Clone, Copy)]
pub struct Layout {
    pub key_size: usize,
    pub index_size: usize,
    pub slot_size: usize,
    pub slot_capacity: usize,
    pub bucket_count: usize,
    pub buckets_offset: usize,
    pub ordered: bool,
}

// The layout, and beside it what calls change.
#[derive(Clone, Copy)]
pub struct Shape {
    pub layout: Layout,
    pub slot_highwater: usize,
    pub live_count: usize,
    pub bucket_tombstones: usize,
    pub state: u64,
    pub generation: u64,
}
