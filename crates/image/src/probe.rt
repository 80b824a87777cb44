// The probe: a key's way through the hash index.
ghost use Rattle.std.specs.Prelude.{◌≡◌};
ghost use Rattle.digests.specs.Fnv.{fnv1a64};
ghost use Rattle.image.specs.Told.{told_broken, free_of, report_of};

use crate::table::{Bucket, Image};
use digests::fnv::fnv1a64_of;
use numbers::parts::same_bytes;

// What a probe ends in: the key's slot, or no such key, each with the number of buckets examined; or a broken table.
#[derive(Clone, Copy)]
pub enum Probe {
    Found { slot: usize, buckets: usize },
    Absent { buckets: usize },
    Broken,
}

// What a probe reports: what it ended in; the bucket where it stopped; and the first TOMBSTONE that it passed. Of a broken table
// these two are nobody's.
#[derive(Clone, Copy)]
pub struct Report {
    pub end: Probe,
    pub bucket: usize,
    pub tombstone: Option<usize>,
}

impl Report {
    // The report of a broken table.
    fn broken(home: usize) -> Self
        ensures { result ≡ told_broken home }
    {
        Report {
            end: Probe::Broken,
            bucket: home,
            tombstone: None,
        }
    }

    // The bucket that is left for a key that is not there: the first TOMBSTONE passed, else the EMPTY where the probe stopped.
    pub fn free_bucket(self) -> usize
        ensures { result ≡ free_of self }
    {
        self.tombstone.unwrap_or(self.bucket)
    }
}

impl Image<'_> {
    // The probe of a key with this hash: from its home bucket on, one bucket after the other, at most all of them.
    pub fn probe_hashed(&self, key: &[u8], hash: u64) -> Report
        requires { hash ≡ fnv1a64 key.now }
        ensures { result ≡ report_of self.now.shape self.now.bytes.now key.now }
    {
        let home = self.home_bucket(hash);
        let mut bucket = home;
        let mut tombstone = None;
        for passed in 0..self.shape.layout.bucket_count {
            match self.bucket_of(bucket) {
                Bucket::Empty => return Report {
                    end: Probe::Absent {
                        buckets: passed + 1,
                    },
                    bucket,
                    tombstone,
                },
                Bucket::Tombstone => tombstone = tombstone.or(Some(bucket)),
                Bucket::Full { hash64, slot } => {
                    if slot >= self.shape.slot_highwater {
                        return Report::broken(home);
                    }
                    if hash64 == hash && same_bytes(self.key_of(slot), key) {
                        if self.meta_of(slot) != 1 {
                            return Report::broken(home);
                        }
                        return Report {
                            end: Probe::Found {
                                slot,
                                buckets: passed + 1,
                            },
                            bucket,
                            tombstone,
                        };
                    }
                }
            }
            bucket = self.next_bucket(bucket);
        }
        Report::broken(home)
    }

    // The probe of a key.
    pub fn probe_for(&self, key: &[u8]) -> Report
        ensures { result ≡ report_of self.now.shape self.now.bytes.now key.now }
    {
        self.probe_hashed(key, fnv1a64_of(key))
    }
}
