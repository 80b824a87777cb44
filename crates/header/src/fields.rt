// The header's fields, as one table of name, offset and width, in the header's order.
ghost use Rattle.std.specs.Prelude.{ℕ, List, ◌≡◌, ◌≤◌, ◌<◌, length, IfOk};
ghost use Rattle.header.specs.Answer.{answer};
ghost use Rattle.header.specs.FirstOf.{first_of};
ghost use Rattle.header.specs.HeaderTest.{test2};
ghost use Rattle.header.specs.Fields.{field, place, field_of, value, bytes_in};

use crate::refusal::{Refusal, refuse_if};
use numbers::words::{u32_at, u64_at};
use std::marker::Model;

#[derive(Clone, Copy)]
pub struct Field {
    pub offset: usize,
    pub width: usize,
}

impl Field {
    // So many bytes from the header's first, and so many long.
    fn new(offset: usize, width: usize) -> Field
        ensures { result ≡ field offset width }
    {
        Field { offset, width }
    }
}

// What the magic of every image is: the bytes "SLC1" as a little-endian word.
pub const SLC1: u64 = 0x31434C53;

// The name of a field.
#[derive(Clone, Copy)]
pub enum Name {
    Magic,
    Version,
    HeaderSize,
    KeySize,
    IndexSize,
    SlotSize,
    HashAlg,
    Flags,
    SlotCapacity,
    SlotHighwater,
    LiveCount,
    UserVersion,
    Generation,
    BucketCount,
    BucketUsed,
    BucketTombstones,
    SlotsOffset,
    BucketsOffset,
    HeaderCrc32c,
    State,
    UserFlags,
    UserData,
    Reserved,
}

// The table: where each field stands in the header.
pub fn field_of(name: Name) -> Field
    ensures { result ≡ field_of (place name) }
{
    match name {
        Name::Magic => Field::new(0x00, 4),
        Name::Version => Field::new(0x04, 4),
        Name::HeaderSize => Field::new(0x08, 4),
        Name::KeySize => Field::new(0x0C, 4),
        Name::IndexSize => Field::new(0x10, 4),
        Name::SlotSize => Field::new(0x14, 4),
        Name::HashAlg => Field::new(0x18, 4),
        Name::Flags => Field::new(0x1C, 4),
        Name::SlotCapacity => Field::new(0x20, 8),
        Name::SlotHighwater => Field::new(0x28, 8),
        Name::LiveCount => Field::new(0x30, 8),
        Name::UserVersion => Field::new(0x38, 8),
        Name::Generation => Field::new(0x40, 8),
        Name::BucketCount => Field::new(0x48, 8),
        Name::BucketUsed => Field::new(0x50, 8),
        Name::BucketTombstones => Field::new(0x58, 8),
        Name::SlotsOffset => Field::new(0x60, 8),
        Name::BucketsOffset => Field::new(0x68, 8),
        Name::HeaderCrc32c => Field::new(0x70, 4),
        Name::State => Field::new(0x74, 4),
        Name::UserFlags => Field::new(0x78, 8),
        Name::UserData => Field::new(0x80, 64),
        Name::Reserved => Field::new(0xC0, 64),
    }
}

// The number in a field of four or eight bytes, little-endian.
pub fn read(image: &[u8], name: Name) -> u64
    requires { (256 ≤ length image.now) × (place name < 21) }
    ensures { result ≡ value image.now (place name) }
{
    let f = field_of(name);
    let at = f.offset;
    let width = f.width;
    if width == 4 {
        u32_at(image, at) as u64
    } else {
        u64_at(image, at)
    }
}

// The bytes of a field: a part of the lent image.
pub fn bytes_in(image: &[u8], name: Name) -> &[u8]
    requires { 256 ≤ length image.now }
    ensures bytes { result.now ≡ bytes_in image.now (place name) }
    ensures long { length result.now ≡ (field_of (place name)).width }
{
    let f = field_of(name);
    let at = f.offset;
    let end = at + f.width;
    &image[at..end]
}

// An image that is long enough for a header. A clause sees its bytes.
#[derive(Drop)]
pub(crate) struct Header<'a> {
    image: &'a [u8],
}

impl<'a> Model for Header<'a> {
    ghost Value = { List ℕ };

    ghost view = { λ h. h.image.now };

    ghost invariant = { λ h. 256 ≤ length h.image.now };
}

impl<'a> Header<'a> {
    // 2. An image of length 0, or one shorter than a header.
    #[tactic(auto, unfolding(crate::specs::FirstOf::first_of, crate::specs::HeaderTest::test2))]
    pub fn of(image: &'a [u8]) -> Result<Header<'a>, Refusal>
        ensures numbered { answer result ≡ first_of (test2 image.now) }
        ensures bytes { IfOk result (λ h. h ≡ image.now) }
    {
        refuse_if(image.len() == 0, Refusal::CreateIt)?;
        refuse_if(image.len() < 256, Refusal::NeedsRebuild)?;
        Ok(Header { image })
    }

    // The bytes.
    pub fn image(&self) -> &'a [u8]
        ensures bytes { result.now ≡ self.now }
        ensures long { 256 ≤ length result.now }
    {
        self.image
    }

    // The number in a field of four or eight bytes.
    pub fn read(&self, name: Name) -> u64
        requires { place name < 21 }
        ensures { result ≡ value self.now (place name) }
    {
        read(self.image, name)
    }

    // The bytes of a field.
    pub fn bytes_in(&self, name: Name) -> &'a [u8]
        ensures bytes { result.now ≡ bytes_in self.now (place name) }
        ensures long { length result.now ≡ (field_of (place name)).width }
    {
        bytes_in(self.image, name)
    }
}
