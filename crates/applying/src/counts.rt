// The counters of a table, counted in the image.
ghost use Rattle.std.specs.Prelude.{◌≡◌};
ghost use Rattle.probing.specs.Table.{is_tombstone, live_count, tombstone_count};
ghost use Rattle.image.specs.Table.{table_of};
ghost use Rattle.image.specs.Told.{bucket_read};

use image::table::{Bucket, Image};

// How many slots are live. The test is added as a number, for filter and count branch at each slot, which makes a commit slower.
pub fn count_live(image: &Image) -> usize
    ensures { result ≡ live_count (table_of image.now.shape image.now.bytes.now) }
{
    let mut sum: usize = 0;
    for n in 0..image.shape.slot_highwater {
        sum += usize::from(image.meta_of(n) == 1);
    }
    sum
}

// Whether a bucket is TOMBSTONE.
fn is_tombstone(bucket: Bucket) -> bool
    ensures { result ≡ is_tombstone (bucket_read bucket) }
{
    matches!(bucket, Bucket::Tombstone)
}

// How many buckets are TOMBSTONE, in the same way.
pub fn count_tombstones(image: &Image) -> usize
    ensures { result ≡ tombstone_count (table_of image.now.shape image.now.bytes.now) }
{
    let mut sum: usize = 0;
    for b in 0..image.shape.layout.bucket_count {
        sum += usize::from(is_tombstone(image.bucket_of(b)));
    }
    sum
}
