// Commit.
ghost use Rattle.std.specs.Prelude.{◌≡◌, ◌+◌, ◌^◌, ◌<◌, ◌≤◌, length};
ghost use Rattle.batch.specs.Batch.{most_records, record_count};
ghost use Rattle.batch.specs.Notes.{Noted, hash_of};
ghost use Rattle.header.specs.Answer.{done, answer};
ghost use Rattle.header.specs.Fields.{value, generation};
ghost use Rattle.header.specs.FirstOf.{first_of};
ghost use Rattle.header.specs.Shaped.{Shaped};
ghost use Rattle.writing.specs.Write.{Leaves, unless};
ghost use Rattle.soundness.specs.Apply.{committed};
ghost use Rattle.soundness.specs.Commit.{further_tests, commit_of, sound_tests};

use crate::further::{room_test, sound_test};
use crate::turns::take_turns;
use applying::apply::{Plan, apply};
use batch::batch::{Batch, MOST_RECORDS};
use batch::decided::{Hashed, hash_keys};
use batch::listed::Listed;
use batch::new_keys::order_new_keys;
use header::options::Options;
use header::refusal::Refusal;
use header::shape::Shape;
use image::table::Image;
use writing::judge::judge_change;

// Makes the room test and, where it does not refuse the batch, acts; the sound tests refused nothing.
#[inline(never)]
fn commit_hashed(image: &mut [u8], s: Shape, hashed: &Hashed) -> Result<(), Refusal>
    requires shaped { Shaped s image.old }
    requires layout { hashed.now.batch.layout ≡ s.layout }
    requires generation_bound { value image.old generation + 2 < 2 ^ 64 }
    requires sound { first_of (sound_tests s image.old hashed.now.batch.bytes.now) ≡ done }
    ensures { Leaves (unless (first_of (further_tests s image.old hashed.now.batch.bytes.now)) image.old (committed s image.old hashed.now.batch.bytes.now)) (answer result) image.new }
{
    let mut places = [0; MOST_RECORDS];
    let fit = Image {
        bytes: image,
        shape: s,
    };
    let turns = take_turns(&fit, hashed, &mut places);
    let new_keys = order_new_keys(&hashed.batch, &turns);
    let new = Listed {
        batch: hashed.batch,
        records: new_keys.listed(),
    };
    room_test(&fit, &new)?;
    let plan = Plan {
        hashed: *hashed,
        turns: &turns,
        places: &places,
        order: new.records,
    };
    apply(image, s, &plan);
    Ok(())
}

// Puts the hash of each record's key into a list. What `hash_keys` gives stands on the stack no longer than this takes.
#[inline(never)]
fn put_hashes(batch: &Batch, hashes: &mut [u64])
    requires few { record_count batch.now.layout batch.now.bytes.now ≤ most_records }
    requires room { length hashes.old ≡ most_records }
    ensures { Noted (hash_of batch.now.layout batch.now.bytes.now) (record_count batch.now.layout batch.now.bytes.now) hashes.new }
{
    hashes.copy_from_slice(&hash_keys(batch));
}

// The same, with the hashes found.
#[inline(never)]
fn commit_sound(image: &mut [u8], s: Shape, batch: &Batch) -> Result<(), Refusal>
    requires shaped { Shaped s image.old }
    requires layout { batch.now.layout ≡ s.layout }
    requires generation_bound { value image.old generation + 2 < 2 ^ 64 }
    requires sound { first_of (sound_tests s image.old batch.now.bytes.now) ≡ done }
    ensures { Leaves (unless (first_of (further_tests s image.old batch.now.bytes.now)) image.old (committed s image.old batch.now.bytes.now)) (answer result) image.new }
{
    let mut hashes = [0; MOST_RECORDS];
    put_hashes(batch, &mut hashes);
    let hashed = Hashed {
        batch: *batch,
        hashes: &hashes,
    };
    commit_hashed(image, s, &hashed)
}

// Makes the further tests and, where none refuses the batch, acts. A refusal leaves every byte alone.
fn commit_in(image: &mut [u8], s: Shape, batch: &Batch) -> Result<(), Refusal>
    requires shaped { Shaped s image.old }
    requires layout { batch.now.layout ≡ s.layout }
    requires generation_bound { value image.old generation + 2 < 2 ^ 64 }
    ensures { Leaves (unless (first_of (further_tests s image.old batch.now.bytes.now)) image.old (committed s image.old batch.now.bytes.now)) (answer result) image.new }
{
    let fit = Image {
        bytes: image,
        shape: s,
    };
    sound_test(&fit, batch)?;
    commit_sound(image, s, batch)
}

// Commits a batch to a DIRTY image. A refusal leaves every byte alone.
pub fn commit_batch(image: &mut [u8], o: Options, batch: &[u8]) -> Result<(), Refusal>
    ensures { Leaves (commit_of o image.old batch.now) (answer result) image.new }
{
    let shape = judge_change(image, o)?;
    let batch = Batch {
        bytes: batch,
        layout: shape.layout,
    };
    commit_in(image, shape, &batch)
}
