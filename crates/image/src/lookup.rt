// Lookup: the slot, the revision and the index of a key.
ghost use Rattle.std.specs.Prelude.{◌≡◌, [], IfOk, IfErr};
ghost use Rattle.image.specs.Lookup.{looked, lookup_in, lookup_of, index_part};
ghost use Rattle.image.specs.Told.{Hashed};

use crate::probe::Probe;
use crate::table::Image;
use digests::fnv::fnv1a64_of;
use header::options::Options;
use header::refusal::Refusal;
use header::sizes::MOST_KEY_SIZE;

// Where a key is, and its revision.
#[derive(Clone, Copy)]
pub struct Entry {
    pub slot: u64,
    pub revision: i64,
}

// What lookup found: a key's entry, or none where it is not there; and the number of buckets examined.
#[derive(Clone, Copy)]
pub struct Found {
    pub entry: Option<Entry>,
    pub buckets: u64,
}

// The hash of a key. What is longer than any key is refused, and not read.
fn hash_of(key: &[u8]) -> u64
    ensures { Hashed result key.now }
{
    if MOST_KEY_SIZE < key.len() as u64 {
        return 0;
    }
    fnv1a64_of(key)
}

impl Image<'_> {
    // Lookup of a key with this hash.
    fn lookup_hashed(&self, key: &[u8], hash: u64) -> Result<Found, Refusal>
        requires { Hashed hash key.now }
        ensures { looked result ≡ lookup_in self.now.shape self.now.bytes.now key.now }
    {
        if key.len() != self.shape.layout.key_size {
            return Err(Refusal::InvalidInput);
        }
        match self.probe_hashed(key, hash).end {
            Probe::Found { slot, buckets } => Ok(Found {
                entry: Some(Entry {
                    slot: slot as u64,
                    revision: self.revision_of(slot),
                }),
                buckets: buckets as u64,
            }),
            Probe::Absent { buckets } => Ok(Found {
                entry: None,
                buckets: buckets as u64,
            }),
            Probe::Broken => Err(Refusal::NeedsRebuild),
        }
    }

    // Lookup of a key.
    fn lookup_in(&self, key: &[u8]) -> Result<Found, Refusal>
        ensures { looked result ≡ lookup_in self.now.shape self.now.bytes.now key.now }
    {
        self.lookup_hashed(key, hash_of(key))
    }
}

// Lookup: the header test, the key's length, then the probe. A key that is not there is no refusal. The key is hashed first: neither
// hash nor test needs the other, and a processor goes on with both at once.
#[tactic(auto, using(crate::proofs::Judging::after_open, crate::proofs::Looked::looked_refused), unfolding(crate::specs::Lookup::lookup_of))]
pub fn look_up(image: &[u8], o: Options, key: &[u8]) -> Result<Found, Refusal>
    ensures { looked result ≡ lookup_of o image.now key.now }
{
    let hash = hash_of(key);
    Image::open(image, o)?.lookup_hashed(key, hash)
}

// The index of a key that is there, or why there is none.
fn index_found<'a>(image: &'a [u8], o: Options, key: &[u8]) -> Result<&'a [u8], Refusal>
    ensures found { IfOk result (λ index. index.now ≡ index_part o image.now key.now) }
    ensures none { IfErr result (λ r. [] ≡ index_part o image.now key.now) }
{
    let fit = Image::open(image, o)?;
    let found = fit.lookup_in(key)?;
    let entry = found.entry.ok_or(Refusal::NotPresent)?;
    Ok(fit.index_of(entry.slot as usize))
}

// The index of a key's slot: the caller's own bytes in the image, or none where lookup finds no entry.
pub fn index_part<'a>(image: &'a [u8], o: Options, key: &[u8]) -> &'a [u8]
    ensures { result.now ≡ index_part o image.now key.now }
{
    index_found(image, o, key).unwrap_or(&[])
}
