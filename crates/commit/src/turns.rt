// The turn of each record of a batch, by the image, and the bucket for its key where that is new.
ghost use Rattle.std.specs.Prelude.{◌≡◌, ◌^◌, ◌<◌};
ghost use Rattle.image.specs.Lookup.{is_live};
ghost use Rattle.image.specs.Told.{free_of};
ghost use Rattle.batch.specs.Batch.{record_count, decides};
ghost use Rattle.batch.specs.Notes.{Noted, Flagged, TurnedBy, turn_of, some_delete};
ghost use Rattle.applying.specs.Prepared.{kept_place, noted_place};

use batch::batch::MOST_RECORDS;
use batch::decided::Hashed;
use batch::new_keys::Turn;
use header::shape::Layout;
use image::probe::{Probe, Report};
use image::table::Image;

// What is noted of a record: its turn and, where its key is new, the bucket for it. A number stands for none, and no Option: the
// buckets of 1,024 records lie on the stack of a commit, which has no room for twice as much.
#[derive(Drop)]
struct Note {
    turn: Turn,
    place: u32,
}

// The bucket that a report leaves for a new key; none, for which B stands, where the batch deletes.
fn kept_place(l: Layout, report: Report, deletes: bool) -> u32
    requires { (l.bucket_count < 2 ^ 32) × (free_of report < 2 ^ 32) }
    ensures { result ≡ kept_place l.bucket_count report deletes }
{
    if deletes {
        return l.bucket_count as u32;
    }
    report.free_bucket() as u32
}

// What is noted of a record whose key is not new: its turn alone.
fn unplaced(turn: Turn) -> Note
    ensures { (result.turn ≡ turn) × (result.place ≡ 0) }
{
    Note { turn, place: 0 }
}

// The turn of record i, by the flags of those that decide, and the bucket noted for it.
fn turn_of(image: &Image, hashed: &Hashed, flags: &[bool], deletes: bool, i: usize) -> Note
    requires layout { hashed.now.batch.layout ≡ image.now.shape.layout }
    requires i_bound { i < record_count image.now.shape.layout hashed.now.batch.bytes.now }
    requires flagged { Flagged (decides image.now.shape.layout hashed.now.batch.bytes.now) (record_count image.now.shape.layout hashed.now.batch.bytes.now) flags.now }
    requires deletes_value { deletes ≡ some_delete image.now.shape.layout hashed.now.batch.bytes.now }
    ensures { (result.turn ≡ turn_of image.now.shape.layout (is_live image.now.shape image.now.bytes.now) hashed.now.batch.bytes.now i) × (result.place ≡ noted_place image.now.shape image.now.bytes.now hashed.now.batch.bytes.now i) }
{
    if !flags[i] {
        return unplaced(Turn::Superseded);
    }
    let record = hashed.batch.record(i);
    if !record.is_put() {
        return unplaced(Turn::Live);
    }
    let report = image.probe_hashed(record.key(), hashed.hashes[i]);
    match report.end {
        Probe::Found { .. } => unplaced(Turn::Live),
        Probe::Absent { .. } | Probe::Broken => Note {
            turn: Turn::New,
            place: kept_place(image.shape.layout, report, deletes),
        },
    }
}

// For each record its turn; the bucket noted for it goes into places, which are all zero before.
#[inline(never)]
pub fn take_turns(image: &Image, hashed: &Hashed, places: &mut [u32]) -> [Turn; MOST_RECORDS]
    requires layout { hashed.now.batch.layout ≡ image.now.shape.layout }
    requires none_noted { Noted (noted_place image.now.shape image.now.bytes.now hashed.now.batch.bytes.now) 0 places.old }
    ensures turns { TurnedBy image.now.shape.layout (is_live image.now.shape image.now.bytes.now) hashed.now.batch.bytes.now result }
    ensures places { Noted (noted_place image.now.shape image.now.bytes.now hashed.now.batch.bytes.now) (record_count image.now.shape.layout hashed.now.batch.bytes.now) places.new }
{
    let flags = hashed.flag_deciding();
    let deletes = hashed.batch.some_delete();
    let mut turns = [Turn::Superseded; MOST_RECORDS];
    // By index: under a zip of two iter_mut the loop's invariant can name neither list.
    for i in 0..hashed.batch.record_count() {
        let note = turn_of(image, hashed, &flags, deletes, i);
        turns[i] = note.turn;
        places[i] = note.place;
    }
    turns
}
