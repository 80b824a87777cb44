// The writes that a commit is made of: slots rewritten, removed and appended, and the index over them.
ghost use Rattle.std.specs.Prelude.{◌≡◌, cond, ◌+◌, ◌^◌, ◌≤◌, ◌<◌, eqb, length};
ghost use Rattle.numbers.specs.Bytes.{part};
ghost use Rattle.digests.specs.Fnv.{fnv1a64};
ghost use Rattle.probing.specs.Change.{place};
ghost use Rattle.probing.specs.Report.{Missing};
ghost use Rattle.probing.specs.Sound.{Sound};
ghost use Rattle.header.specs.Fields.{value, generation};
ghost use Rattle.header.specs.Shaped.{LaidOut, Shaped};
ghost use Rattle.image.specs.Table.{meta_of, key_of, table_of};
ghost use Rattle.slots.specs.Slots.{Hinted, rewritten, removed, indexed, appended, rebuilt, counted};

use digests::fnv::fnv1a64_of;
use header::fields::{Name, read};
use header::shape::{Layout, Shape};
use header::sizes::align8;
use header::state::GENERATION_STEP;
use image::table::{Bucket, Image, TOMBSTONE, bucket_at, slot_at};
use numbers::parts::{clear, copy_to};
use numbers::words::put_u64;
use writing::fields::{seal, write};

// Puts the revision and the index of a record into slot n.
#[tactic(auto, using(image::proofs::Places::index_inside, header::proofs::SizeLaws::align8_low), unfolding(image::specs::Table::index_at, header::specs::Sizes::slot_size))]
pub fn rewrite(image: &mut [u8], l: Layout, n: usize, record: &[u8])
    requires laid_out { LaidOut l image.old }
    requires n_bound { n < l.slot_capacity }
    requires record_len { length «record».now ≡ l.slot_size }
    ensures { image.new ≡ rewritten l image.old n «record».now }
{
    let from = 8 + (align8(l.key_size as u64) as usize);
    let end = from + 8 + l.index_size;
    let at = slot_at(l, n) + from;
    copy_to(image, at, &record[from..end]);
}

// Clears the meta of slot n and makes bucket b a TOMBSTONE, its hash64 unchanged.
#[tactic(auto, using(image::proofs::Places::meta_inside, image::proofs::Places::bucket_inside))]
pub fn remove(image: &mut [u8], l: Layout, n: usize, b: usize)
    requires laid_out { LaidOut l image.old }
    requires n_bound { n < l.slot_capacity }
    requires b_bound { b < l.bucket_count }
    ensures { image.new ≡ removed l image.old n b }
{
    let slot = slot_at(l, n);
    put_u64(image, slot, 0);
    let bucket = bucket_at(l, b) + 8;
    put_u64(image, bucket, TOMBSTONE);
}

// The bucket for a key that is not there, which has this hash: the one noted before, if any, unless it is no bucket or FULL by now;
// else by the key's probe.
fn place_for(image: &Image, key: &[u8], hash: u64, hint: Option<usize>) -> usize
    requires hash_value { hash ≡ fnv1a64 key.now }
    requires missing { Missing (table_of image.now.shape image.now.bytes.now) key.now }
    requires hint { Hinted (table_of image.now.shape image.now.bytes.now) key.now hint }
    ensures { result ≡ place (table_of image.now.shape image.now.bytes.now) key.now }
{
    if let Some(noted) = hint {
        if noted < image.shape.layout.bucket_count {
            match image.bucket_of(noted) {
                Bucket::Empty | Bucket::Tombstone => return noted,
                Bucket::Full { .. } => (),
            }
        }
    }
    image.probe_hashed(key, hash).free_bucket()
}

// Puts slot n into the index by its key, which has this hash and is not there yet; the bucket noted for it, if any, is a
// hint.
fn index_slot(image: &mut [u8], s: Shape, n: usize, hash: u64, hint: Option<usize>)
    requires shaped { Shaped s image.old }
    requires n_bound { n < s.layout.slot_capacity }
    requires hash_value { hash ≡ fnv1a64 (key_of s.layout image.old n) }
    requires missing { Missing (table_of s image.old) (key_of s.layout image.old n) }
    requires hint { Hinted (table_of s image.old) (key_of s.layout image.old n) hint }
    ensures { image.new ≡ indexed s image.old n }
{
    let fit = Image {
        bytes: image,
        shape: s,
    };
    let place = place_for(&fit, fit.key_of(n), hash, hint);
    let at = bucket_at(s.layout, place);
    put_u64(image, at, hash);
    put_u64(image, at + 8, (n as u64) + 1);
}

// Makes a record, whose key has this hash and is not there, the next slot, and puts that slot into the index; the bucket noted for
// the key, if any, is a hint.
#[tactic(auto, using(image::proofs::Places::slot_inside), unfolding(crate::specs::Slots::appended))]
pub fn append(image: &mut [u8], s: Shape, record: &[u8], hash: u64, hint: Option<usize>)
    requires shaped { Shaped s image.old }
    requires slot_highwater_bound { s.slot_highwater < s.layout.slot_capacity }
    requires record_len { length «record».now ≡ s.layout.slot_size }
    requires hash_value { hash ≡ fnv1a64 (part «record».now 8 s.layout.key_size) }
    requires missing { Missing (table_of s image.old) (part «record».now 8 s.layout.key_size) }
    requires hint { Hinted (table_of s image.old) (part «record».now 8 s.layout.key_size) hint }
    ensures { image.new ≡ appended s image.old «record».now }
{
    let n = s.slot_highwater;
    let at = slot_at(s.layout, n);
    copy_to(image, at, record);
    index_slot(image, s, n, hash, hint);
}

// Puts slot n into the index if it is live. Its key is not there yet.
fn index_live(image: &mut [u8], s: Shape, n: usize)
    requires shaped { Shaped s image.old }
    requires n_bound { n < s.layout.slot_capacity }
    requires missing { meta_of s.layout image.old n ≡ 1 → Missing (table_of s image.old) (key_of s.layout image.old n) }
    ensures { image.new ≡ cond (eqb (meta_of s.layout image.old n) 1) (indexed s image.old n) image.old }
{
    let fit = Image {
        bytes: image,
        shape: s,
    };
    if fit.meta_of(n) == 1 {
        let hash = fnv1a64_of(fit.key_of(n));
        index_slot(image, s, n, hash, None);
    }
}

// Makes all buckets zero and puts the live slots into the index, in slot order.
pub fn rebuild(image: &mut [u8], s: Shape)
    requires shaped { Shaped s image.old }
    requires sound { Sound (table_of s image.old) }
    ensures { image.new ≡ rebuilt s image.old }
{
    let at = s.layout.buckets_offset;
    let size = 16 * s.layout.bucket_count;
    clear(image, at, size);
    for n in 0..s.slot_highwater {
        index_live(image, s, n);
    }
}

// Publishes the counters of a shape: the header says them, the generation moves on and the CRC is renewed.
pub fn publish(image: &mut [u8], s: Shape)
    requires { (256 ≤ length image.old) × (value image.old generation + 2 < 2 ^ 64) }
    ensures { image.new ≡ counted s image.old }
{
    let next = read(image, Name::Generation) + GENERATION_STEP;
    let highwater = s.slot_highwater as u64;
    let live = s.live_count as u64;
    let tombstones = s.bucket_tombstones as u64;
    write(image, Name::Generation, next);
    write(image, Name::SlotHighwater, highwater);
    write(image, Name::LiveCount, live);
    write(image, Name::BucketUsed, live);
    write(image, Name::BucketTombstones, tombstones);
    seal(image);
}
