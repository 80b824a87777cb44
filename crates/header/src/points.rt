// The third to the twelfth point of the header test: each the refusal that it gives, if any.
ghost use Rattle.std.specs.Prelude.{true, ◌≡◌, ◌^◌, ◌<◌};
ghost use Rattle.header.specs.Answer.{answer};
ghost use Rattle.header.specs.Sizes.{sizes_to_open};
ghost use Rattle.header.specs.FirstOf.{first_of};
ghost use Rattle.header.specs.HeaderTest.{test3, test4, test5, test6, test7, test8, test9, image_total, test10, test11, test12};

use crate::fields::{Header, Name, SLC1};
use crate::options::Options;
use crate::refusal::{Refusal, refuse_if};
use crate::sizes::{MOST_BUCKET_COUNT, buckets_offset, capacity_fits, slot_size};
use crate::state;
use crate::state::{ANOTHER_WRITER, DIRTY, NO_WRITER_KNOWN};
use digests::crc::header_crc;
use numbers::parts::all_zero;

impl Header<'_> {
    // 3. Magic, version, header_size or hash_alg wrong.
    pub fn format_test(&self) -> Result<(), Refusal>
        ensures { answer result ≡ first_of (test3 self.now) }
    {
        let magic = self.read(Name::Magic) == SLC1;
        let version = self.read(Name::Version) == 1;
        let header_size = self.read(Name::HeaderSize) == 256;
        let hash_alg = self.read(Name::HashAlg) == 1;
        refuse_if(
            !(magic & version & header_size & hash_alg),
            Refusal::Incompatible,
        )
    }

    // 4. Generation odd.
    pub fn generation_test(&self, o: Options) -> Result<(), Refusal>
        ensures { answer result ≡ first_of (test4 o self.now) }
    {
        let odd = self.read(Name::Generation) % 2 == 1;
        refuse_if(odd & (o.role == ANOTHER_WRITER), Refusal::Busy)?;
        refuse_if(odd, Refusal::NeedsRebuild)
    }

    // 5. CRC differs.
    #[tactic(auto, unfolding(crate::specs::FirstOf::first_of, crate::specs::HeaderTest::test5))]
    pub fn crc_test(&self) -> Result<(), Refusal>
        ensures { answer result ≡ first_of (test5 self.now) }
    {
        let stored = self.read(Name::HeaderCrc32c);
        refuse_if(
            !(stored == header_crc(self.image()) as u64),
            Refusal::NeedsRebuild,
        )
    }

    // 6. Unknown flag, non-zero reserved byte, unknown state.
    #[tactic(auto, unfolding(crate::specs::FirstOf::first_of, crate::specs::HeaderTest::test6))]
    pub fn known_test(&self) -> Result<(), Refusal>
        ensures { answer result ≡ first_of (test6 self.now) }
    {
        let flags = self.read(Name::Flags);
        let reserved = all_zero(self.bytes_in(Name::Reserved));
        let state = self.read(Name::State);
        refuse_if(
            (1 < flags) | !reserved | (DIRTY < state),
            Refusal::Incompatible,
        )
    }

    // 7. INVALIDATED.
    #[tactic(auto, unfolding(crate::specs::FirstOf::first_of, crate::specs::HeaderTest::test7))]
    pub fn invalidated_test(&self) -> Result<(), Refusal>
        ensures { answer result ≡ first_of (test7 self.now) }
    {
        refuse_if(
            self.read(Name::State) == state::INVALIDATED,
            Refusal::Invalidated,
        )
    }

    // 8. Sizes, user_version or ordered flag not as the options say.
    #[tactic(auto, unfolding(crate::specs::FirstOf::first_of, crate::specs::HeaderTest::test8))]
    pub fn agreement_test(&self, o: Options) -> Result<(), Refusal>
        requires { sizes_to_open o ≡ true }
        ensures { answer result ≡ first_of (test8 o self.now) }
    {
        let key = self.read(Name::KeySize) == o.key_size;
        let index = self.read(Name::IndexSize) == o.index_size;
        let slot = self.read(Name::SlotSize) == slot_size(o.key_size, o.index_size);
        let capacity = capacity_fits(o.slot_capacity, self.read(Name::SlotCapacity));
        let version = self.read(Name::UserVersion) == o.user_version;
        let ordered = self.read(Name::Flags) == o.ordered;
        refuse_if(
            !(key & index & slot & capacity & version & ordered),
            Refusal::Incompatible,
        )
    }

    // 9. bucket_count a power of two that is too large, or no power of two above slot_capacity.
    pub fn buckets_test(&self) -> Result<(), Refusal>
        ensures { answer result ≡ first_of (test9 self.now) }
    {
        let count = self.read(Name::BucketCount);
        let power = count.is_power_of_two();
        refuse_if(power & (MOST_BUCKET_COUNT < count), Refusal::Incompatible)?;
        let capacity = self.read(Name::SlotCapacity);
        refuse_if(!(power & (capacity < count)), Refusal::NeedsRebuild)
    }

    // 10. An offset wrong, or a length other than the total: asked where the sizes are small.
    #[tactic(auto, unfolding(crate::specs::FirstOf::first_of, crate::specs::HeaderTest::test10, crate::specs::HeaderTest::image_total, crate::specs::Sizes::total))]
    pub fn extent_test(&self) -> Result<(), Refusal>
        requires { image_total self.now < 2 ^ 64 }
        ensures { answer result ≡ first_of (test10 self.now) }
    {
        let slots = self.read(Name::SlotsOffset);
        let buckets = self.read(Name::BucketsOffset);
        let capacity = self.read(Name::SlotCapacity);
        let slot = self.read(Name::SlotSize);
        let offset = buckets_offset(capacity, slot);
        refuse_if(
            !((slots == 256) & (buckets == offset)),
            Refusal::NeedsRebuild,
        )?;
        let total = offset + 16 * self.read(Name::BucketCount);
        refuse_if(
            !((self.image().len() as u64) == total),
            Refusal::NeedsRebuild,
        )
    }

    // 11. live_count = bucket_used, and bucket_used + bucket_tombstones <= slot_highwater <= slot_capacity. The sum is not formed.
    pub fn counters_test(&self) -> Result<(), Refusal>
        ensures { answer result ≡ first_of (test11 self.now) }
    {
        let used = self.read(Name::BucketUsed);
        let highwater = self.read(Name::SlotHighwater);
        let live = self.read(Name::LiveCount) == used;
        let tombstones = used <= highwater && self.read(Name::BucketTombstones) <= highwater - used;
        let capacity = highwater <= self.read(Name::SlotCapacity);
        refuse_if(!(live & tombstones & capacity), Refusal::NeedsRebuild)
    }

    // 12. DIRTY with role 0.
    pub fn dirty_test(&self, o: Options) -> Result<(), Refusal>
        ensures { answer result ≡ first_of (test12 o self.now) }
    {
        refuse_if(
            (self.read(Name::State) == DIRTY) & (o.role == NO_WRITER_KNOWN),
            Refusal::NeedsRebuild,
        )
    }
}
