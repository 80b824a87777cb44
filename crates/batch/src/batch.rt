// A batch: its records, their parts, and whether each is well formed.
ghost use Rattle.std.specs.Prelude.{◌≡◌, ◌+◌, ◌<◌, not, eqb};
ghost use Rattle.header.specs.Sizes.{align8 as aligned};
ghost use Rattle.batch.specs.Batch.{SlotSized, RecordSized, record_count, record_at, meta_in, key_in, key_padding, revision_and_index, index_padding, malformed, some_malformed, batch_wrong, record_key};
ghost use Rattle.batch.specs.Notes.{some_delete};

use header::shape::Layout;
use header::sizes::align8;
use numbers::parts::all_zero;
use numbers::words::u64_at;

// A batch has 0 to so many records.
pub const MOST_RECORDS: usize = 1024;

// A record: so many bytes as a slot has.
#[derive(Clone, Copy)]
pub struct Record<'a> {
    pub bytes: &'a [u8],
    pub layout: Layout,
    pub ghost sized: { RecordSized layout bytes.now },
}

impl<'a> Record<'a> {
    // Its meta.
    pub fn meta(&self) -> u64
        ensures { result ≡ meta_in self.now.bytes.now }
    {
        u64_at(self.bytes, 0)
    }

    // Whether it is a put.
    pub fn is_put(&self) -> bool
        ensures { result ≡ eqb (meta_in self.now.bytes.now) 1 }
    {
        self.meta() == 1
    }

    // Whether it is a delete.
    fn is_delete(&self) -> bool
        ensures { result ≡ not (eqb (meta_in self.now.bytes.now) 1) }
    {
        !self.is_put()
    }

    // Its key: the batch's own bytes.
    pub fn key(&self) -> &'a [u8]
        ensures { result.now ≡ key_in self.now.layout self.now.bytes.now }
    {
        let end = 8 + self.layout.key_size;
        &self.bytes[8..end]
    }

    // Where its revision begins.
    fn revision_at(&self) -> usize
        ensures { result ≡ 8 + aligned self.now.layout.key_size }
    {
        8 + (align8(self.layout.key_size as u64) as usize)
    }

    // The padding behind its key.
    fn key_padding(&self) -> &'a [u8]
        ensures { result.now ≡ key_padding self.now.layout self.now.bytes.now }
    {
        let at = 8 + self.layout.key_size;
        let end = self.revision_at();
        &self.bytes[at..end]
    }

    // Its revision and its index.
    fn revision_and_index(&self) -> &'a [u8]
        ensures { result.now ≡ revision_and_index self.now.layout self.now.bytes.now }
    {
        let at = self.revision_at();
        let end = at + 8 + self.layout.index_size;
        &self.bytes[at..end]
    }

    // The padding behind its index.
    fn index_padding(&self) -> &'a [u8]
        ensures { result.now ≡ index_padding self.now.layout self.now.bytes.now }
    {
        let at = self.revision_at() + 8 + self.layout.index_size;
        &self.bytes[at..]
    }

    // Whether its meta is neither 0 nor 1, a byte of its padding is not zero, or it is a delete whose revision or index is not
    // zero.
    fn is_malformed(&self) -> bool
        ensures { result ≡ malformed self.now.layout self.now.bytes.now }
    {
        let meta = self.meta();
        let behind_key = all_zero(self.key_padding());
        let behind_index = all_zero(self.index_padding());
        let nothing_else = all_zero(self.revision_and_index());
        (1 < meta) | !behind_key | !behind_index | ((meta == 0) & !nothing_else)
    }
}

// A batch of records that are laid out as the slots are.
#[derive(Clone, Copy)]
pub struct Batch<'a> {
    pub bytes: &'a [u8],
    pub layout: Layout,
    pub ghost sized: { SlotSized layout },
}

impl<'a> Batch<'a> {
    // How many records it has.
    pub fn record_count(&self) -> usize
        ensures { result ≡ record_count self.now.layout self.now.bytes.now }
    {
        self.bytes.len() / self.layout.slot_size
    }

    // Record i.
    pub fn record(&self, i: usize) -> Record<'a>
        requires { i < record_count self.now.layout self.now.bytes.now }
        ensures bytes { result.bytes.now ≡ record_at self.now.layout self.now.bytes.now i }
        ensures layout { result.layout ≡ self.now.layout }
    {
        let layout = self.layout;
        let at = i * layout.slot_size;
        let end = at + layout.slot_size;
        Record {
            bytes: &self.bytes[at..end],
            layout,
        }
    }

    // The key of record i: the batch's own bytes.
    pub fn record_key(&self, i: usize) -> &'a [u8]
        requires { i < record_count self.now.layout self.now.bytes.now }
        ensures { result.now ≡ record_key self.now.layout self.now.bytes.now i }
    {
        self.record(i).key()
    }

    // Whether some record is malformed.
    fn some_malformed(&self) -> bool
        ensures { result ≡ some_malformed self.now.layout self.now.bytes.now }
    {
        (0..self.record_count()).any(|i| self.record(i).is_malformed())
    }

    // Whether it is no multiple of the slot size, has too many records, or has a malformed one.
    pub fn is_wrong(&self) -> bool
        ensures { result ≡ batch_wrong self.now.layout self.now.bytes.now }
    {
        self.bytes.len() % self.layout.slot_size != 0
            || MOST_RECORDS < self.record_count()
            || self.some_malformed()
    }

    // Whether some record is a delete.
    pub fn some_delete(&self) -> bool
        ensures { result ≡ some_delete self.now.layout self.now.bytes.now }
    {
        (0..self.record_count()).any(|i| self.record(i).is_delete())
    }
}
