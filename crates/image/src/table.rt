// The table in an image: its slots and buckets, by the layout.
ghost use Rattle.std.specs.Prelude.{true, ◌≡◌, ◌+◌, ◌%◌, ◌^◌, ◌<◌, IfOk};
ghost use Rattle.numbers.specs.Bytes.{part, word};
ghost use Rattle.header.specs.Answer.{answer};
ghost use Rattle.header.specs.HeaderTest.{header_test, power_of_two, shape_of};
ghost use Rattle.header.specs.Shaped.{LaidOut, Shaped};
ghost use Rattle.image.specs.Table.{slot_at, revision_at, bucket_at, meta_of, key_of, revision_of, index_of, bucket_of};
ghost use Rattle.image.specs.Told.{bucket_read};

use header::judge::judge;
use header::options::Options;
use header::refusal::Refusal;
use header::shape::{Layout, Shape};
use header::sizes::align8;
use numbers::words::{signed_of, u64_at};

// The slot_plus1 of a TOMBSTONE: all ones.
pub const TOMBSTONE: u64 = 18446744073709551615;

// What a bucket is; a FULL one has a key's hash and the number of its slot.
#[derive(Clone, Copy)]
pub enum Bucket {
    Empty,
    Tombstone,
    Full { hash64: u64, slot: usize },
}

// Where slot n begins.
#[tactic(auto, unfolding(crate::specs::Table::slot_at))]
pub fn slot_at(l: Layout, n: usize) -> usize
    requires { slot_at l n < 2 ^ 64 }
    ensures { result ≡ slot_at l n }
{
    256 + n * l.slot_size
}

// Where the revision of slot n begins.
#[tactic(auto, using(header::proofs::SizeLaws::align8_low), unfolding(crate::specs::Table::revision_at))]
fn revision_at(l: Layout, n: usize) -> usize
    requires { revision_at l n < 2 ^ 64 }
    ensures { result ≡ revision_at l n }
{
    slot_at(l, n) + 8 + (align8(l.key_size as u64) as usize)
}

// Where bucket b begins.
#[tactic(auto, unfolding(crate::specs::Table::bucket_at))]
pub fn bucket_at(l: Layout, b: usize) -> usize
    requires { bucket_at l b < 2 ^ 64 }
    ensures { result ≡ bucket_at l b }
{
    l.buckets_offset + 16 * b
}

// The meta of slot n.
#[tactic(auto, using(crate::proofs::Places::meta_inside), unfolding(crate::specs::Table::meta_of))]
pub fn meta_of(image: &[u8], l: Layout, n: usize) -> u64
    requires laid_out { LaidOut l image.now }
    requires n_bound { n < l.slot_capacity }
    ensures { result ≡ meta_of l image.now n }
{
    u64_at(image, slot_at(l, n))
}

// The key of slot n: the image's own bytes.
#[tactic(auto, using(crate::proofs::Places::key_inside, numbers::proofs::Put::range_part), unfolding(crate::specs::Table::key_at, crate::specs::Table::key_of))]
pub fn key_of<'a>(image: &'a [u8], l: Layout, n: usize) -> &'a [u8]
    requires laid_out { LaidOut l image.now }
    requires n_bound { n < l.slot_capacity }
    ensures { result.now ≡ key_of l image.now n }
{
    let at = slot_at(l, n) + 8;
    &image[at..at + l.key_size]
}

// The revision of slot n.
#[tactic(auto, using(crate::proofs::Places::revision_inside), unfolding(crate::specs::Table::revision_of))]
pub fn revision_of(image: &[u8], l: Layout, n: usize) -> i64
    requires laid_out { LaidOut l image.now }
    requires n_bound { n < l.slot_capacity }
    ensures { result ≡ revision_of l image.now n }
{
    signed_of(u64_at(image, revision_at(l, n)))
}

// The index of slot n: the image's own bytes.
#[tactic(auto, using(crate::proofs::Places::index_inside, crate::proofs::Places::revision_in_slot))]
pub fn index_of<'a>(image: &'a [u8], l: Layout, n: usize) -> &'a [u8]
    requires laid_out { LaidOut l image.now }
    requires n_bound { n < l.slot_capacity }
    ensures { result.now ≡ index_of l image.now n }
{
    let at = revision_at(l, n) + 8;
    &image[at..at + l.index_size]
}

// The hash64 of bucket b.
#[tactic(auto, using(crate::proofs::Places::bucket_inside))]
pub fn hash64_of(image: &[u8], l: Layout, b: usize) -> u64
    requires laid_out { LaidOut l image.now }
    requires b_bound { b < l.bucket_count }
    ensures { result ≡ word (part image.now (bucket_at l b) 8) }
{
    u64_at(image, bucket_at(l, b))
}

// The slot_plus1 of bucket b.
#[tactic(auto, using(crate::proofs::Places::bucket_inside))]
pub fn slot_plus1_of(image: &[u8], l: Layout, b: usize) -> u64
    requires laid_out { LaidOut l image.now }
    requires b_bound { b < l.bucket_count }
    ensures { result ≡ word (part image.now (bucket_at l b + 8) 8) }
{
    u64_at(image, bucket_at(l, b) + 8)
}

// The home bucket of a hash, of so many: the remainder, which for a power of two is a mask.
pub fn home_bucket(hash: u64, count: usize) -> usize
    requires { power_of_two count ≡ true }
    ensures { result ≡ hash % count }
{
    (hash & ((count - 1) as u64)) as usize
}

// The bucket after b, of so many, round the end.
pub fn next_bucket(b: usize, count: usize) -> usize
    requires { b < count }
    ensures { result ≡ (b + 1) % count }
{
    if b + 1 < count {
        return b + 1;
    }
    0
}

// An image that passed the header test, with its shape.
#[derive(Clone, Copy)]
pub struct Image<'a> {
    pub bytes: &'a [u8],
    pub shape: Shape,
    pub ghost shaped: { Shaped shape bytes.now },
}

impl<'a> Image<'a> {
    // Makes the header test: the image with its shape, or why it is refused. In line, for what it returns is long to copy.
    #[inline(always)]
    pub fn open(bytes: &'a [u8], o: Options) -> Result<Self, Refusal>
        ensures numbered { answer result ≡ header_test o bytes.now }
        ensures bytes { IfOk result (λ i. i.bytes.now ≡ bytes.now) }
        ensures shape { IfOk result (λ i. i.shape ≡ shape_of bytes.now) }
    {
        let shape = judge(bytes, o)?;
        Ok(Image { bytes, shape })
    }

    // The meta of slot n.
    pub fn meta_of(&self, n: usize) -> u64
        requires { n < self.now.shape.layout.slot_capacity }
        ensures { result ≡ meta_of self.now.shape.layout self.now.bytes.now n }
    {
        meta_of(self.bytes, self.shape.layout, n)
    }

    // The key of slot n.
    pub fn key_of(&self, n: usize) -> &'a [u8]
        requires { n < self.now.shape.layout.slot_capacity }
        ensures { result.now ≡ key_of self.now.shape.layout self.now.bytes.now n }
    {
        key_of(self.bytes, self.shape.layout, n)
    }

    // The revision of slot n.
    pub fn revision_of(&self, n: usize) -> i64
        requires { n < self.now.shape.layout.slot_capacity }
        ensures { result ≡ revision_of self.now.shape.layout self.now.bytes.now n }
    {
        revision_of(self.bytes, self.shape.layout, n)
    }

    // The index of slot n.
    pub fn index_of(&self, n: usize) -> &'a [u8]
        requires { n < self.now.shape.layout.slot_capacity }
        ensures { result.now ≡ index_of self.now.shape.layout self.now.bytes.now n }
    {
        index_of(self.bytes, self.shape.layout, n)
    }

    // Bucket b. The hash64 of one that is not FULL is not read.
    #[tactic(auto, unfolding(crate::specs::Table::bucket_of, crate::specs::Table::bucket_from))]
    pub fn bucket_of(&self, b: usize) -> Bucket
        requires { b < self.now.shape.layout.bucket_count }
        ensures { bucket_read result ≡ bucket_of self.now.shape.layout self.now.bytes.now b }
    {
        match slot_plus1_of(self.bytes, self.shape.layout, b) {
            0 => Bucket::Empty,
            TOMBSTONE => Bucket::Tombstone,
            slot_plus1 => Bucket::Full {
                hash64: hash64_of(self.bytes, self.shape.layout, b),
                slot: (slot_plus1 - 1) as usize,
            },
        }
    }

    // The home bucket of a hash.
    pub fn home_bucket(&self, hash: u64) -> usize
        ensures { result ≡ hash % self.now.shape.layout.bucket_count }
    {
        home_bucket(hash, self.shape.layout.bucket_count)
    }

    // The bucket after b.
    pub fn next_bucket(&self, b: usize) -> usize
        requires { b < self.now.shape.layout.bucket_count }
        ensures { result ≡ (b + 1) % self.now.shape.layout.bucket_count }
    {
        next_bucket(b, self.shape.layout.bucket_count)
    }
}
