// The header test, and what it hands on.
ghost use Rattle.std.specs.Prelude.{true, ◌≡◌, ◌++◌, IfOk};
ghost use Rattle.header.specs.Answer.{answer};
ghost use Rattle.header.specs.Sizes.{sizes_to_open};
ghost use Rattle.header.specs.FirstOf.{first_of};
ghost use Rattle.header.specs.HeaderTest.{options_test, test1, create_test1, test3, test4, test5, test6, test7, test8, test9, test10, test11, test12, header_test, layout_of, shape_of};

use crate::fields::{Header, Name};
use crate::options::Options;
use crate::refusal::{Refusal, refuse_if};
use crate::shape::{Layout, Shape};
use crate::sizes::{sizes_to_create, sizes_to_open};
use crate::state::HOLDS_THE_LOCK;

// Options outside the sizes, ordered above 1, or role above 2.
fn options_wrong(inside: bool, o: Options) -> Result<(), Refusal>
    ensures { answer result ≡ first_of (options_test inside o) }
{
    refuse_if(
        !inside | (1 < o.ordered) | (HOLDS_THE_LOCK < o.role),
        Refusal::InvalidInput,
    )
}

// 1. The options of a call that opens an image.
#[tactic(auto, unfolding(crate::specs::HeaderTest::test1))]
pub fn options_test(o: Options) -> Result<(), Refusal>
    ensures { answer result ≡ first_of (test1 o) }
{
    options_wrong(sizes_to_open(o), o)
}

// 1. The options of create.
#[tactic(auto, unfolding(crate::specs::HeaderTest::create_test1))]
pub fn create_options_test(o: Options) -> Result<(), Refusal>
    ensures { answer result ≡ first_of (create_test1 o) }
{
    options_wrong(sizes_to_create(o), o)
}

// Tests 3 to 7: whether this is an SLC1 header that was written whole and may be used.
#[tactic(auto, unfolding(crate::specs::FirstOf::first_of, crate::specs::HeaderTest::test3, crate::specs::HeaderTest::test4, crate::specs::HeaderTest::test5, crate::specs::HeaderTest::test6, crate::specs::HeaderTest::test7))]
fn written_test(header: &Header, o: Options) -> Result<(), Refusal>
    ensures { answer result ≡ first_of (test3 header.now ++ (test4 o header.now ++ (test5 header.now ++ (test6 header.now ++ test7 header.now)))) }
{
    header.format_test()?;
    header.generation_test(o)?;
    header.crc_test()?;
    header.known_test()?;
    header.invalidated_test()
}

// Tests 8 to 12: whether the header fits the options, the rules and the image.
fn fitting_test(header: &Header, o: Options) -> Result<(), Refusal>
    requires { sizes_to_open o ≡ true }
    ensures { answer result ≡ first_of (test8 o header.now ++ (test9 header.now ++ (test10 header.now ++ (test11 header.now ++ test12 o header.now)))) }
{
    header.agreement_test(o)?;
    header.buckets_test()?;
    header.extent_test()?;
    header.counters_test()?;
    header.dirty_test(o)
}

// The header test: the header of an image that passes.
pub(crate) fn header_test(image: &[u8], o: Options) -> Result<Header<'_>, Refusal>
    ensures numbered { answer result ≡ header_test o image.now }
    ensures bytes { IfOk result (λ h. h ≡ image.now) }
{
    options_test(o)?;
    let header = Header::of(image)?;
    written_test(&header, o)?;
    fitting_test(&header, o)?;
    Ok(header)
}

// Where a header says that slots and buckets lie.
#[tactic(auto, unfolding(crate::specs::HeaderTest::layout_of))]
fn layout_of(header: &Header) -> Layout
    ensures { result ≡ layout_of header.now }
{
    Layout {
        key_size: header.read(Name::KeySize) as usize,
        index_size: header.read(Name::IndexSize) as usize,
        slot_size: header.read(Name::SlotSize) as usize,
        slot_capacity: header.read(Name::SlotCapacity) as usize,
        bucket_count: header.read(Name::BucketCount) as usize,
        buckets_offset: header.read(Name::BucketsOffset) as usize,
        ordered: header.read(Name::Flags) == 1,
    }
}

// What a header says, for later calls.
#[tactic(auto, unfolding(crate::specs::HeaderTest::shape_of))]
fn shape_of(header: &Header) -> Shape
    ensures { result ≡ shape_of header.now }
{
    Shape {
        layout: layout_of(header),
        slot_highwater: header.read(Name::SlotHighwater) as usize,
        live_count: header.read(Name::LiveCount) as usize,
        bucket_tombstones: header.read(Name::BucketTombstones) as usize,
        state: header.read(Name::State),
        generation: header.read(Name::Generation),
    }
}

// Makes the header test: the shape of an image that passes, or why it is refused.
pub fn judge(image: &[u8], o: Options) -> Result<Shape, Refusal>
    ensures numbered { answer result ≡ header_test o image.now }
    ensures shape { IfOk result (λ s. s ≡ shape_of image.now) }
{
    let header = header_test(image, o)?;
    Ok(shape_of(&header))
}
