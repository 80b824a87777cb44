// Document 01's bench examples that are run and not proved.
use crate::print;
use commit::commit::commit_batch;
use header::judge::judge;
use header::open::open_check;
use header::options::{Options, bench};
use header::refusal::{DONE, Refusal, number_of};
use header::state::HOLDS_THE_LOCK;
use image::check::full_check;
use image::lookup::{Found, look_up};
use std::io;
use writing::create::create;
use writing::state::begin;

// The bench's own options: a total of 45,312 bytes.
fn large() -> Options {
    bench(HOLDS_THE_LOCK)
}

// Key 1, index 0, capacity 3: B is 8, a slot 24 bytes, the total 456.
fn small() -> Options {
    Options {
        key_size: 1,
        index_size: 0,
        slot_capacity: 3,
        user_version: 1,
        ordered: 0,
        role: HOLDS_THE_LOCK,
    }
}

// Prints what the open check answers of an image.
fn opened(rt: &impl Print, label: &[u8], image: &[u8]) -> io::Result<()> {
    let answer = number_of(&open_check(image, large()));
    print::decimal(rt, label, u64::from(answer))
}

// "Length 45,311 is 1; 45,312 opens." And "a length other than the total is 1" (CR 8): create takes a longer buffer, but all
// of it is no image.
pub fn lengths(rt: &impl Print) -> io::Result<()> {
    let mut buffer = [0u8; 45313];
    let _ = create(&mut buffer, large());
    opened(rt, b"length 45311 answers", &buffer[0..45311])?;
    opened(rt, b"length 45312 answers", &buffer[0..45312])?;
    opened(rt, b"length 45313 answers", &buffer)
}

// Prints what lookup answers of a key in a fresh image.
fn looked_up(rt: &impl Print, label: &[u8], key: &[u8]) -> io::Result<()> {
    let mut image = [0u8; 45312];
    let _ = create(&mut image, large());
    let answer = match look_up(&image, large(), key) {
        Ok(Found { entry: Some(_), .. }) => DONE,
        Ok(Found { entry: None, .. }) => Refusal::NotPresent.number(),
        Err(refusal) => refusal.number(),
    };
    print::decimal(rt, label, u64::from(answer))
}

// "Key of 11 bytes where 12 is set: 7."
pub fn keys(rt: &impl Print) -> io::Result<()> {
    looked_up(rt, b"a key of 11 bytes answers", b"SENSOR-0001")?;
    looked_up(rt, b"a key of 12 bytes answers", b"SENSOR-00012")
}

// A batch of one record: a put or a delete of a key.
fn record(meta: u8, key: u8) -> [u8; 24] {
    let mut bytes = [0u8; 24];
    bytes[0] = meta;
    bytes[8] = key;
    bytes
}

// Commits one record, and prints the tombstones that the full check then counts.
fn tombstones_after(rt: &impl Print, image: &mut [u8; 456], meta: u8, key: u8) -> io::Result<()> {
    let batch = record(meta, key);
    let _ = commit_batch(image, small(), &batch);
    let tombstones = full_check(image, small()).map_or(0, |counts| counts.tombstones);
    print::decimal(rt, b"tombstones", tombstones)
}

// "B 8: 2 tombstones stay, 3 cause a rebuild."
pub fn rebuild(rt: &impl Print) -> io::Result<()> {
    let mut image = [0u8; 456];
    let _ = create(&mut image, small());
    let _ = begin(&mut image, small());
    tombstones_after(rt, &mut image, 1, b'a')?;
    tombstones_after(rt, &mut image, 1, b'b')?;
    tombstones_after(rt, &mut image, 1, b'c')?;
    tombstones_after(rt, &mut image, 0, b'a')?;
    tombstones_after(rt, &mut image, 0, b'b')?;
    tombstones_after(rt, &mut image, 0, b'c')
}

// "Put then delete of a new key in one batch takes no slot."
pub fn no_slot(rt: &impl Print) -> io::Result<()> {
    let mut image = [0u8; 456];
    let _ = create(&mut image, small());
    let _ = begin(&mut image, small());
    let mut batch = [0u8; 48];
    batch[0] = 1;
    batch[8] = b'a';
    batch[32] = b'a';
    let answer = number_of(&commit_batch(&mut image, small(), &batch));
    print::decimal(rt, b"put then delete answers", u64::from(answer))?;
    match judge(&image, small()) {
        Ok(s) => print::decimal(rt, b"slots taken", s.slot_highwater as u64),
        Err(refusal) => print::decimal(rt, b"refused", u64::from(refusal.number())),
    }
}
