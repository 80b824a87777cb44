// The further tests of a commit, in order.
ghost use Rattle.std.specs.Prelude.{◌≡◌};
ghost use Rattle.header.specs.Answer.{answer};
ghost use Rattle.header.specs.FirstOf.{first_of};
ghost use Rattle.applying.specs.Prepared.{InOrder};
ghost use Rattle.soundness.specs.Commit.{falls_behind, sound_tests, room_tests};

use batch::batch::Batch;
use batch::listed::Listed;
use header::refusal::{Refusal, refuse_if};
use image::table::Image;
use numbers::parts::comes_before;

// The tests of the batch by itself, and of the image by itself.
pub fn sound_test(image: &Image, batch: &Batch) -> Result<(), Refusal>
    requires { batch.now.layout ≡ image.now.shape.layout }
    ensures { answer result ≡ first_of (sound_tests image.now.shape image.now.bytes.now batch.now.bytes.now) }
{
    refuse_if(batch.is_wrong(), Refusal::InvalidInput)?;
    refuse_if(!image.passes_check(), Refusal::NeedsRebuild)
}

// Whether the first of the new keys, whose records are listed in order, comes before the key of the last slot given out.
fn falls_behind(image: &Image, new: &Listed) -> bool
    requires layout { new.now.batch.layout ≡ image.now.shape.layout }
    requires ordered { InOrder image.now.shape image.now.bytes.now new.now.batch.bytes.now new.now.records.now }
    ensures { result ≡ falls_behind image.now.shape image.now.bytes.now new.now.batch.bytes.now }
{
    let s = image.shape;
    if !s.layout.ordered || s.slot_highwater == 0 || new.records.is_empty() {
        return false;
    }
    let last = s.slot_highwater - 1;
    comes_before(new.key(0), image.key_of(last))
}

// The tests of the new keys, whose records are listed in order.
pub fn room_test(image: &Image, new: &Listed) -> Result<(), Refusal>
    requires layout { new.now.batch.layout ≡ image.now.shape.layout }
    requires ordered { InOrder image.now.shape image.now.bytes.now new.now.batch.bytes.now new.now.records.now }
    ensures { answer result ≡ first_of (room_tests image.now.shape image.now.bytes.now new.now.batch.bytes.now) }
{
    let s = image.shape;
    let room = s.layout.slot_capacity - s.slot_highwater;
    refuse_if(room < new.records.len(), Refusal::Full)?;
    refuse_if(falls_behind(image, new), Refusal::OutOfOrder)
}
