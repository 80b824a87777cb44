// The full check.
ghost use Rattle.std.specs.Prelude.{◌≡◌, not, ◌||◌, ◌+◌, ◌<◌};
ghost use Rattle.probing.specs.Table.{FULL};
ghost use Rattle.probing.specs.Check.{bucket_right, never_fall};
ghost use Rattle.image.specs.Table.{table_of};
ghost use Rattle.image.specs.Tally.{buckets_to, slots_to};
ghost use Rattle.image.specs.Check.{checked, passes, check_in, check_of};

use crate::probe::Probe;
use crate::table::{Bucket, Image};
use digests::fnv::fnv1a64_of;
use header::options::Options;
use header::refusal::Refusal;
use numbers::parts::comes_before;

// What the full check counts in an image that passes: live slots, TOMBSTONE buckets, and the sum of lookup counts over live keys.
#[derive(Clone, Copy)]
pub struct Counts {
    pub live: u64,
    pub tombstones: u64,
    pub probes: u64,
}

// What the buckets passed so far say: whether each FULL one is right, and how many are FULL and TOMBSTONE.
#[derive(Clone, Copy)]
pub struct BucketTally {
    pub right: bool,
    pub full: usize,
    pub tombstones: usize,
}

// What the slots passed so far say: whether each meta is 0 or 1, whether each live slot's key is found there, how many slots
// are live, and the sum of their lookup counts.
#[derive(Clone, Copy)]
pub struct SlotTally {
    pub metas: bool,
    pub found: bool,
    pub live: usize,
    pub probes: u64,
}

impl Image<'_> {
    // Whether a FULL bucket with this hash64 points below highwater at a slot with meta 1 and carries its key's hash.
    fn full_right(&self, hash64: u64, slot: usize) -> bool
        ensures { result ≡ bucket_right (table_of self.now.shape self.now.bytes.now) (FULL hash64 slot) }
    {
        slot < self.shape.slot_highwater
            && self.meta_of(slot) == 1
            && hash64 == fnv1a64_of(self.key_of(slot))
    }

    // The tally with bucket b, from that of the buckets before it.
    fn with_bucket(&self, b: usize, tally: BucketTally) -> BucketTally
        requires b_bound { b < self.now.shape.layout.bucket_count }
        requires tally_value { tally ≡ buckets_to (table_of self.now.shape self.now.bytes.now) b }
        ensures { result ≡ buckets_to (table_of self.now.shape self.now.bytes.now) (b + 1) }
    {
        match self.bucket_of(b) {
            // Field by field: copied whole, the tally goes through memory, and a full check takes half as long again.
            Bucket::Empty => BucketTally { ..tally },
            Bucket::Tombstone => BucketTally {
                tombstones: tally.tombstones + 1,
                ..tally
            },
            Bucket::Full { hash64, slot } => BucketTally {
                right: tally.right & self.full_right(hash64, slot),
                full: tally.full + 1,
                ..tally
            },
        }
    }

    // What all the buckets say.
    fn read_buckets(&self) -> BucketTally
        ensures { result ≡ buckets_to (table_of self.now.shape self.now.bytes.now) self.now.shape.layout.bucket_count }
    {
        let mut tally = BucketTally {
            right: true,
            full: 0,
            tombstones: 0,
        };
        for b in 0..self.shape.layout.bucket_count {
            tally = self.with_bucket(b, tally);
        }
        tally
    }

    // The tally with slot n, from that of the slots before it.
    fn with_slot(&self, n: usize, tally: SlotTally) -> SlotTally
        requires n_bound { n < self.now.shape.slot_highwater }
        requires tally_value { tally ≡ slots_to (table_of self.now.shape self.now.bytes.now) n }
        ensures { result ≡ slots_to (table_of self.now.shape self.now.bytes.now) (n + 1) }
    {
        let meta = self.meta_of(n);
        if meta == 0 {
            return tally;
        }
        if meta != 1 {
            return SlotTally {
                metas: false,
                ..tally
            };
        }
        let live = tally.live + 1;
        match self.probe_for(self.key_of(n)).end {
            Probe::Found { slot, buckets } => SlotTally {
                found: tally.found & (slot == n),
                live,
                probes: tally.probes + buckets as u64,
                ..tally
            },
            Probe::Absent { buckets } => SlotTally {
                found: false,
                live,
                probes: tally.probes + buckets as u64,
                ..tally
            },
            Probe::Broken => SlotTally {
                found: false,
                live,
                ..tally
            },
        }
    }

    // What all the slots below highwater say.
    fn read_slots(&self) -> SlotTally
        ensures { result ≡ slots_to (table_of self.now.shape self.now.bytes.now) self.now.shape.slot_highwater }
    {
        let mut tally = SlotTally {
            metas: true,
            found: true,
            live: 0,
            probes: 0,
        };
        for n in 0..self.shape.slot_highwater {
            tally = self.with_slot(n, tally);
        }
        tally
    }

    // Whether the keys of all slots below highwater never fall.
    fn never_fall(&self) -> bool
        ensures { result ≡ never_fall (table_of self.now.shape self.now.bytes.now) }
    {
        for n in 1..self.shape.slot_highwater {
            if comes_before(self.key_of(n), self.key_of(n - 1)) {
                return false;
            }
        }
        true
    }

    // Whether the keys are as the ordered flag asks.
    fn order_right(&self) -> bool
        ensures { result ≡ not self.now.shape.layout.ordered || never_fall (table_of self.now.shape self.now.bytes.now) }
    {
        !self.shape.layout.ordered || self.never_fall()
    }

    // The full check after the header test.
    fn check_in(&self) -> Result<Counts, Refusal>
        ensures { checked result ≡ check_in self.now.shape self.now.bytes.now }
    {
        let buckets = self.read_buckets();
        let slots = self.read_slots();
        let live = self.shape.live_count;
        let tombstones = self.shape.bucket_tombstones;
        let counts = (slots.live == live)
            & (buckets.full == live)
            & (buckets.tombstones == tombstones);
        // `&` and no `&&`: what it joins is read already, and each `&&` would be one more case of the proof.
        if buckets.right & slots.metas & slots.found & counts & self.order_right() {
            return Ok(Counts {
                live: live as u64,
                tombstones: tombstones as u64,
                probes: slots.probes,
            });
        }
        Err(Refusal::NeedsRebuild)
    }

    // Whether the image passes the full check.
    #[tactic(auto, using(crate::proofs::Passes::ok_passes))]
    pub fn passes_check(&self) -> bool
        ensures { result ≡ passes self.now.shape self.now.bytes.now }
    {
        self.check_in().is_ok()
    }
}

// The full check: the header test, then every sentence about buckets and slots.
#[tactic(auto, using(crate::proofs::Judging::after_open, crate::proofs::Passes::checked_refused), unfolding(crate::specs::Check::check_of))]
pub fn full_check(image: &[u8], o: Options) -> Result<Counts, Refusal>
    ensures { checked result ≡ check_of o image.now }
{
    Image::open(image, o)?.check_in()
}
