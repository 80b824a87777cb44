// A fresh image in a lent buffer.
ghost use Rattle.std.specs.Prelude.{true, ◌≡◌, ◌++◌, ◌≤◌, length, take, drop};
ghost use Rattle.header.specs.Answer.{answer};
ghost use Rattle.header.specs.Sizes.{sizes_to_create, most_key_size, most_index_size, total_size};
ghost use Rattle.writing.specs.Write.{with_fields, Leaves};
ghost use Rattle.writing.specs.Create.{fresh_fields, fresh, create_of};

use crate::fields::{seal, write};
use header::fields::{Name, SLC1};
use header::judge::create_options_test;
use header::options::Options;
use header::refusal::{Refusal, refuse_if};
use header::sizes::{bucket_count, buckets_offset, slot_size, total_size};
use numbers::parts::clear;

// Puts what every image says, and the sizes of a slot, into a header: the first six fields of a fresh one.
fn write_sizes(image: &mut [u8], o: Options)
    requires { (256 ≤ length image.old) × (o.key_size ≤ most_key_size) × (o.index_size ≤ most_index_size) }
    ensures { image.new ≡ with_fields image.old (take 6 (fresh_fields o)) }
{
    let slot = slot_size(o.key_size, o.index_size);
    write(image, Name::Magic, SLC1);
    write(image, Name::Version, 1);
    write(image, Name::HeaderSize, 256);
    write(image, Name::KeySize, o.key_size);
    write(image, Name::IndexSize, o.index_size);
    write(image, Name::SlotSize, slot);
}

// Puts the hash and what else the options say into a header: the next four fields.
fn write_options(image: &mut [u8], o: Options)
    requires { (256 ≤ length image.old) × (o.ordered ≤ 1) }
    ensures { image.new ≡ with_fields image.old (take 4 (drop 6 (fresh_fields o))) }
{
    write(image, Name::HashAlg, 1);
    write(image, Name::Flags, o.ordered);
    write(image, Name::SlotCapacity, o.slot_capacity);
    write(image, Name::UserVersion, o.user_version);
}

// Puts where the slots and buckets lie into a header: the last three fields.
fn write_layout(image: &mut [u8], o: Options)
    requires { (256 ≤ length image.old) × (sizes_to_create o ≡ true) }
    ensures { image.new ≡ with_fields image.old (drop 10 (fresh_fields o)) }
{
    let count = bucket_count(o.slot_capacity);
    let offset = buckets_offset(o.slot_capacity, slot_size(o.key_size, o.index_size));
    write(image, Name::BucketCount, count);
    write(image, Name::SlotsOffset, 256);
    write(image, Name::BucketsOffset, offset);
}

// Makes the first bytes of the buffer, exactly the total, a fresh image.
fn make(buffer: &mut [u8], o: Options, total: usize)
    requires { (total ≡ total_size o) × (256 ≤ total) × (total ≤ length buffer.old) × (sizes_to_create o ≡ true) × (o.ordered ≤ 1) }
    ensures { buffer.new ≡ fresh o ++ drop (total_size o) buffer.old }
{
    clear(buffer, 0, total);
    write_sizes(buffer, o);
    write_options(buffer, o);
    write_layout(buffer, o);
    seal(buffer);
}

// Makes the first bytes of the buffer a fresh image, its bytes past the total unchanged. Refused, it leaves every byte alone.
pub fn create(buffer: &mut [u8], o: Options) -> Result<(), Refusal>
    ensures { Leaves (create_of o buffer.old) (answer result) buffer.new }
{
    create_options_test(o)?;
    let total = total_size(o) as usize;
    refuse_if(buffer.len() < total, Refusal::TooShort)?;
    make(buffer, o, total);
    Ok(())
}
