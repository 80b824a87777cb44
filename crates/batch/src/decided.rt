// Which records of a batch decide: found from the last one on, by an index of those found before.
ghost use Rattle.std.specs.Prelude.{◌≡◌, ◌-◌, ◌<◌, ◌≤◌};
ghost use Rattle.probing.specs.Report.{report};
ghost use Rattle.batch.specs.Batch.{most_records, record_count, record_key, decides};
ghost use Rattle.batch.specs.Notes.{Noted, Flagged, hash_of};
ghost use Rattle.batch.specs.Index.{index_buckets, following, record_table, stops_at, Entries, Indexed};

use crate::batch::{Batch, MOST_RECORDS};
use digests::fnv::fnv1a64_of;
use numbers::parts::same_bytes;

// The number of buckets of the index: an EMPTY one is certain, and few keys are away from home.
const INDEX_SIZE: usize = 2 * MOST_RECORDS;

// The hash of each record's key.
#[inline(never)]
pub fn hash_keys(batch: &Batch) -> [u64; MOST_RECORDS]
    requires { record_count batch.now.layout batch.now.bytes.now ≤ most_records }
    ensures { Noted (hash_of batch.now.layout batch.now.bytes.now) (record_count batch.now.layout batch.now.bytes.now) result }
{
    let mut hashes: [u64; MOST_RECORDS] = [0; MOST_RECORDS];
    for i in 0..batch.record_count() {
        hashes[i] = fnv1a64_of(batch.record_key(i));
    }
    hashes
}

// A batch with the hash of each record's key.
#[derive(Clone, Copy)]
pub struct Hashed<'a> {
    pub batch: Batch<'a>,
    pub hashes: &'a [u64],
    pub ghost noted: { Noted (hash_of batch.layout batch.bytes.now) (record_count batch.layout batch.bytes.now) hashes.now },
}

impl<'a> Hashed<'a> {
    // Whether bucket b of the index is EMPTY or has a record with the key of record i.
    fn stops_at(&self, index: &[u16], i: usize, b: usize) -> bool
        requires i_bound { (i < record_count self.now.batch.layout self.now.batch.bytes.now) × (b < index_buckets) }
        requires entries { Entries self.now.batch.layout self.now.batch.bytes.now index.now }
        ensures { result ≡ stops_at (record_table self.now.batch.layout self.now.batch.bytes.now index.now) (record_key self.now.batch.layout self.now.batch.bytes.now i) ((record_table self.now.batch.layout self.now.batch.bytes.now index.now).bucket b) }
    {
        let plus1 = usize::from(index[b]);
        if plus1 == 0 {
            return true;
        }
        let j = plus1 - 1;
        self.hashes[j] == self.hashes[i]
            && same_bytes(self.batch.record_key(j), self.batch.record_key(i))
    }

    // The bucket where the probe for the key of record i stops, in the index of the records that follow it.
    fn stop_of(&self, index: &[u16], i: usize) -> usize
        requires i_bound { i < record_count self.now.batch.layout self.now.batch.bytes.now }
        requires indexed { Indexed self.now.batch.layout self.now.batch.bytes.now index.now (following self.now.batch.layout self.now.batch.bytes.now i) }
        ensures { result ≡ (report (record_table self.now.batch.layout self.now.batch.bytes.now index.now) (record_key self.now.batch.layout self.now.batch.bytes.now i)).bucket }
    {
        let home = (self.hashes[i] % (INDEX_SIZE as u64)) as usize;
        for step in 0..INDEX_SIZE {
            let b = (home + step) % INDEX_SIZE;
            if self.stops_at(index, i, b) {
                return b;
            }
        }
        home
    }

    // Enters record i, if no later record has its key: whether none has.
    fn enter(&self, index: &mut [u16], i: usize) -> bool
        requires i_bound { i < record_count self.now.batch.layout self.now.batch.bytes.now }
        requires indexed { Indexed self.now.batch.layout self.now.batch.bytes.now index.old (following self.now.batch.layout self.now.batch.bytes.now i) }
        ensures { (result ≡ decides self.now.batch.layout self.now.batch.bytes.now i) × Indexed self.now.batch.layout self.now.batch.bytes.now index.new (record_count self.now.batch.layout self.now.batch.bytes.now - i) }
    {
        let b = self.stop_of(index, i);
        if index[b] != 0 {
            return false;
        }
        index[b] = (i + 1) as u16;
        true
    }

    // Whether each record decides.
    #[inline(never)]
    pub fn flag_deciding(&self) -> [bool; MOST_RECORDS]
        ensures { Flagged (decides self.now.batch.layout self.now.batch.bytes.now) (record_count self.now.batch.layout self.now.batch.bytes.now) result }
    {
        let mut flags: [bool; MOST_RECORDS] = [false; MOST_RECORDS];
        let mut index: [u16; INDEX_SIZE] = [0; INDEX_SIZE];
        for i in (0..self.batch.record_count()).rev() {
            flags[i] = self.enter(&mut index, i);
        }
        flags
    }
}
