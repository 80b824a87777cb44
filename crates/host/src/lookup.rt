// Lookup: a call for each of its numbers, and one for all of them.
ghost use Rattle.std.specs.Prelude.{◌≡◌};
ghost use Rattle.host.specs.Options.{options_of};
ghost use Rattle.host.specs.Results.{Reports, lookup_report};
ghost use Rattle.image.specs.Lookup.{looked, lookup_of};

use crate::results::{LOOKUP_RESULTS, word_of};
use header::options::Options;
use header::refusal::{DONE, Refusal};
use image::lookup::{Entry, Found, look_up};
use numbers::parts::copy_to;

// The number that C is given of a lookup.
fn number_in(found: Result<Found, Refusal>) -> u32
    ensures { result ≡ (looked found).answer }
{
    match found {
        Ok(Found { entry: Some(_), .. }) => DONE,
        Ok(Found { entry: None, .. }) => Refusal::NotPresent.number(),
        Err(refusal) => refusal.number(),
    }
}

// The entry of a key that is found, else zeros.
fn entry_in(found: Result<Found, Refusal>) -> Entry
    ensures { result ≡ record { slot = (looked found).slot; revision = (looked found).revision } }
{
    match found {
        Ok(
            Found {
                entry: Some(entry),
                ..
            },
        ) => entry,
        _ => Entry {
            slot: 0,
            revision: 0,
        },
    }
}

// The number of buckets examined, 0 where the lookup is refused.
fn buckets_in(found: Result<Found, Refusal>) -> u64
    ensures { result ≡ (looked found).buckets }
{
    match found {
        Ok(Found { buckets, .. }) => buckets,
        Err(_) => 0,
    }
}

// 0 found, 9 not present, or the number that refuses the call.
#[unsafe(no_mangle)]
pub extern "C" fn slc1_lookup(
    image: &[u8],
    key_size: u64,
    index_size: u64,
    slot_capacity: u64,
    user_version: u64,
    ordered: u64,
    role: u64,
    key: &[u8],
) -> u32
    ensures { result ≡ (lookup_of (options_of key_size index_size slot_capacity user_version ordered role) image.now key.now).answer }
{
    let found = look_up(
        image,
        Options {
            key_size,
            index_size,
            slot_capacity,
            user_version,
            ordered,
            role,
        },
        key,
    );
    number_in(found)
}

// The slot of a key that is found, else 0.
#[unsafe(no_mangle)]
pub extern "C" fn slc1_lookup_slot(
    image: &[u8],
    key_size: u64,
    index_size: u64,
    slot_capacity: u64,
    user_version: u64,
    ordered: u64,
    role: u64,
    key: &[u8],
) -> u64
    ensures { result ≡ (lookup_of (options_of key_size index_size slot_capacity user_version ordered role) image.now key.now).slot }
{
    let found = look_up(
        image,
        Options {
            key_size,
            index_size,
            slot_capacity,
            user_version,
            ordered,
            role,
        },
        key,
    );
    entry_in(found).slot
}

// The revision of a key that is found, else 0.
#[unsafe(no_mangle)]
pub extern "C" fn slc1_lookup_revision(
    image: &[u8],
    key_size: u64,
    index_size: u64,
    slot_capacity: u64,
    user_version: u64,
    ordered: u64,
    role: u64,
    key: &[u8],
) -> i64
    ensures { result ≡ (lookup_of (options_of key_size index_size slot_capacity user_version ordered role) image.now key.now).revision }
{
    let looked = look_up(
        image,
        Options {
            key_size,
            index_size,
            slot_capacity,
            user_version,
            ordered,
            role,
        },
        key,
    );
    entry_in(looked).revision
}

// The number of buckets examined for a key that is found or not present, else 0.
#[unsafe(no_mangle)]
pub extern "C" fn slc1_lookup_buckets(
    image: &[u8],
    key_size: u64,
    index_size: u64,
    slot_capacity: u64,
    user_version: u64,
    ordered: u64,
    role: u64,
    key: &[u8],
) -> u64
    ensures { result ≡ (lookup_of (options_of key_size index_size slot_capacity user_version ordered role) image.now key.now).buckets }
{
    let found = look_up(
        image,
        Options {
            key_size,
            index_size,
            slot_capacity,
            user_version,
            ordered,
            role,
        },
        key,
    );
    buckets_in(found)
}

// Writes the answer, the slot, the revision as a word of two's complement and the number of buckets to the start of a lent list,
// whatever the answer is, and answers it. 11 comes before all else, where the list is shorter than 4, and leaves it alone.
#[unsafe(no_mangle)]
pub extern "C" fn slc1_lookup_results(
    image: &[u8],
    key_size: u64,
    index_size: u64,
    slot_capacity: u64,
    user_version: u64,
    ordered: u64,
    role: u64,
    key: &[u8],
    results: &mut [u64],
) -> u32
    ensures { Reports (lookup_report (lookup_of (options_of key_size index_size slot_capacity user_version ordered role) image.now key.now) results.old) result results.new }
{
    if results.len() < LOOKUP_RESULTS {
        return Refusal::TooShort.number();
    }
    let o = Options {
        key_size,
        index_size,
        slot_capacity,
        user_version,
        ordered,
        role,
    };
    let looked_up = look_up(image, o, key);
    let answer = number_in(looked_up);
    let entry = entry_in(looked_up);
    let revision = word_of(entry.revision);
    let buckets = buckets_in(looked_up);
    let all = [u64::from(answer), entry.slot, revision, buckets];
    copy_to(results, 0, &all);
    answer
}
