// What a batch that passed every test does to the image.
ghost use Rattle.std.specs.Prelude.{◌≡◌, ◌+◌, ◌^◌, ◌≤◌, ◌<◌, length, get_or};
ghost use Rattle.digests.specs.Fnv.{fnv1a64};
ghost use Rattle.probing.specs.Report.{Missing, Hint};
ghost use Rattle.probing.specs.Sound.{Sound};
ghost use Rattle.header.specs.Fields.{value, generation};
ghost use Rattle.header.specs.Shaped.{LaidOut, Shaped};
ghost use Rattle.image.specs.Table.{table_of};
ghost use Rattle.image.specs.Lookup.{probe_of};
ghost use Rattle.header.specs.Counters.{with_counters, with_slots};
ghost use Rattle.slots.specs.Slots.{appended};
ghost use Rattle.batch.specs.Batch.{ByIndex, record_count, record_at, key_in, record_key};
ghost use Rattle.batch.specs.Notes.{Turned, new_by};
ghost use Rattle.soundness.specs.Apply.{on_slot, on_live, acted, acted_to, tidied, settled, committed};
ghost use Rattle.applying.specs.Prepared.{Prepared, appended_to, AllMissing, AllHinted};

use crate::counts::{count_live, count_tombstones};
use batch::batch::Record;
use batch::decided::Hashed;
use batch::new_keys::Turn;
use header::shape::Shape;
use image::probe::Probe;
use image::table::Image;
use slots::slots::{append, publish, rebuild, remove, rewrite};

// What is found out of a batch before it acts: the hash and the turn of each record, the bucket noted for it, and the records of the
// new keys in their order.
#[derive(Clone, Copy)]
pub struct Plan<'a> {
    pub hashed: Hashed<'a>,
    pub turns: &'a [Turn],
    pub places: &'a [u32],
    pub order: &'a [u16],
}

// A put rewrites slot n, which has the record's key; a delete clears it and makes bucket b, where it stands, a TOMBSTONE.
fn act_on_slot(image: &mut [u8], r: &Record, n: usize, b: usize)
    requires laid_out { LaidOut r.now.layout image.old }
    requires n_bound { (n < r.now.layout.slot_capacity) × (b < r.now.layout.bucket_count) }
    ensures { image.new ≡ on_slot r.now.layout image.old r.now.bytes.now n b }
{
    if r.is_put() {
        rewrite(image, r.layout, n, r.bytes);
    } else {
        remove(image, r.layout, n, b);
    }
}

// A record, whose key has this hash, acts on its key's slot, if the key is live.
fn act_on_key(image: &mut [u8], s: Shape, r: &Record, hash: u64)
    requires shaped { Shaped s image.old }
    requires layout { r.now.layout ≡ s.layout }
    requires hash_value { hash ≡ fnv1a64 (key_in s.layout r.now.bytes.now) }
    ensures { image.new ≡ on_live s image.old r.now.bytes.now (probe_of s image.old (key_in s.layout r.now.bytes.now)) }
{
    let fit = Image {
        bytes: image,
        shape: s,
    };
    let report = fit.probe_hashed(r.key(), hash);
    if let Probe::Found { slot, .. } = report.end {
        act_on_slot(image, r, slot, report.bucket);
    }
}

// Record i acts, if its turn is with the live keys.
fn act(image: &mut [u8], s: Shape, plan: &Plan, i: usize)
    requires shaped { Shaped s image.old }
    requires layout { plan.now.hashed.batch.layout ≡ s.layout }
    requires i_bound { i < record_count s.layout plan.now.hashed.batch.bytes.now }
    requires turned { Turned s.layout plan.now.hashed.batch.bytes.now plan.now.turns.now }
    ensures { image.new ≡ acted s (new_by plan.now.turns.now) plan.now.hashed.batch.bytes.now i image.old }
{
    if plan.turns[i].is_live() {
        let record = plan.hashed.batch.record(i);
        act_on_key(image, s, &record, plan.hashed.hashes[i]);
    }
}

// Every record whose key is not new acts, one after the other.
fn act_all(image: &mut [u8], s: Shape, plan: &Plan)
    requires shaped { Shaped s image.old }
    requires layout { plan.now.hashed.batch.layout ≡ s.layout }
    requires turned { Turned s.layout plan.now.hashed.batch.bytes.now plan.now.turns.now }
    ensures { image.new ≡ acted_to s (new_by plan.now.turns.now) image.old plan.now.hashed.batch.bytes.now (record_count s.layout plan.now.hashed.batch.bytes.now) }
{
    for i in 0..plan.hashed.batch.record_count() {
        act(image, s, plan, i);
    }
}

// A shape with other counters.
#[tactic(auto, unfolding(header::specs::Counters::with_counters))]
fn with_counters(s: Shape, highwater: usize, live: usize, tombstones: usize) -> Shape
    ensures { result ≡ with_counters s highwater live tombstones }
{
    Shape {
        slot_highwater: highwater,
        live_count: live,
        bucket_tombstones: tombstones,
        ..s
    }
}

// A shape with so many slots given out.
#[tactic(auto, unfolding(header::specs::Counters::with_counters, header::specs::Counters::with_slots))]
fn with_slots(s: Shape, highwater: usize) -> Shape
    ensures { result ≡ with_slots s highwater }
{
    Shape {
        slot_highwater: highwater,
        ..s
    }
}

// Record i, whose key is not there, becomes the slot that k others come before; the bucket noted for it is a hint.
fn append_one(image: &mut [u8], s: Shape, plan: &Plan, k: usize, i: usize)
    requires shaped { Shaped s image.old }
    requires layout { plan.now.hashed.batch.layout ≡ s.layout }
    requires i_bound { i < record_count s.layout plan.now.hashed.batch.bytes.now }
    requires batch_in_bounds { record_count s.layout plan.now.hashed.batch.bytes.now ≤ length plan.now.places.now }
    requires k_bound { s.slot_highwater + k < s.layout.slot_capacity }
    requires missing { Missing (table_of (with_slots s (s.slot_highwater + k)) image.old) (record_key s.layout plan.now.hashed.batch.bytes.now i) }
    requires hint { Hint (table_of (with_slots s (s.slot_highwater + k)) image.old) (record_key s.layout plan.now.hashed.batch.bytes.now i) (get_or plan.now.places.now i 0) }
    ensures { image.new ≡ appended (with_slots s (s.slot_highwater + k)) image.old (record_at s.layout plan.now.hashed.batch.bytes.now i) }
{
    // Where B, which is no bucket, stands for none, it is no hint.
    append(
        image,
        with_slots(s, s.slot_highwater + k),
        plan.hashed.batch.record(i).bytes,
        plan.hashed.hashes[i],
        Some(plan.places[i] as usize),
    );
}

// The new keys get the next slots, in their order.
fn append_all(image: &mut [u8], s: Shape, plan: &Plan)
    requires shaped { Shaped s image.old }
    requires layout { plan.now.hashed.batch.layout ≡ s.layout }
    requires batch_in_bounds { record_count s.layout plan.now.hashed.batch.bytes.now ≤ length plan.now.places.now }
    requires room { s.slot_highwater + length plan.now.order.now ≤ s.layout.slot_capacity }
    requires by_index { ByIndex s.layout plan.now.hashed.batch.bytes.now plan.now.order.now }
    requires all_missing { AllMissing s plan.now.hashed.batch.bytes.now plan.now.order.now image.old }
    requires all_hinted { AllHinted s plan.now.hashed.batch.bytes.now plan.now.places.now plan.now.order.now image.old }
    ensures { image.new ≡ appended_to s plan.now.hashed.batch.bytes.now plan.now.order.now image.old (length plan.now.order.now) }
{
    let order = plan.order;
    for (k, i) in order.iter().enumerate() {
        append_one(image, s, plan, k, usize::from(*i));
    }
}

// Rebuilds the index if more than a quarter of the buckets are TOMBSTONE.
#[tactic(auto, using(crate::proofs::Acting::tombstones_bound, crate::proofs::Acting::tidied_left))]
fn tidy(image: &mut [u8], s: Shape)
    requires shaped { Shaped s image.old }
    requires sound { Sound (table_of s image.old) }
    ensures { image.new ≡ tidied s image.old }
{
    let fit = Image {
        bytes: image,
        shape: s,
    };
    if s.layout.bucket_count < 4 * count_tombstones(&fit) {
        rebuild(image, s);
    }
}

// Tidies the index, and then publishes the counters.
fn settle(image: &mut [u8], s: Shape)
    requires shaped { Shaped s image.old }
    requires sound { Sound (table_of s image.old) }
    requires generation_bound { value image.old generation + 2 < 2 ^ 64 }
    ensures { image.new ≡ settled s image.old }
{
    tidy(image, s);
    let fit = Image {
        bytes: image,
        shape: s,
    };
    let live = count_live(&fit);
    let tombstones = count_tombstones(&fit);
    publish(image, with_counters(s, s.slot_highwater, live, tombstones));
}

// Commits a batch that passed every test, by what was found out of it.
pub fn apply(image: &mut [u8], s: Shape, plan: &Plan)
    requires shaped { Shaped s image.old }
    requires layout { plan.now.hashed.batch.layout ≡ s.layout }
    requires generation_bound { value image.old generation + 2 < 2 ^ 64 }
    requires prepared { Prepared s image.old plan.now.hashed.batch.bytes.now plan.now.turns.now plan.now.places.now plan.now.order.now }
    ensures { image.new ≡ committed s image.old plan.now.hashed.batch.bytes.now }
{
    act_all(image, s, plan);
    append_all(image, s, plan);
    settle(image, with_slots(s, s.slot_highwater + plan.order.len()));
}
