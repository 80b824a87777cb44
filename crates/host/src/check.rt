// The full check: a call for each of its numbers, and one for all of them.
ghost use Rattle.std.specs.Prelude.{◌≡◌};
ghost use Rattle.host.specs.Options.{options_of};
ghost use Rattle.host.specs.Results.{Reports, check_report};
ghost use Rattle.image.specs.Check.{check_of};

use crate::results::FULL_CHECK_RESULTS;
use header::options::Options;
use header::refusal::{Refusal, number_of};
use image::check::{Counts, full_check};
use numbers::parts::copy_to;

// 0 where every sentence of the full check holds, else the number that says why not.
#[unsafe(no_mangle)]
pub extern "C" fn slc1_full_check(
    image: &[u8],
    key_size: u64,
    index_size: u64,
    slot_capacity: u64,
    user_version: u64,
    ordered: u64,
    role: u64,
) -> u32
    ensures { result ≡ (check_of (options_of key_size index_size slot_capacity user_version ordered role) image.now).answer }
{
    let checked = full_check(
        image,
        Options {
            key_size,
            index_size,
            slot_capacity,
            user_version,
            ordered,
            role,
        },
    );
    number_of(&checked)
}

// The number of live slots where the full check answers 0, else 0.
#[unsafe(no_mangle)]
pub extern "C" fn slc1_full_check_live(
    image: &[u8],
    key_size: u64,
    index_size: u64,
    slot_capacity: u64,
    user_version: u64,
    ordered: u64,
    role: u64,
) -> u64
    ensures { result ≡ (check_of (options_of key_size index_size slot_capacity user_version ordered role) image.now).live }
{
    let checked = full_check(
        image,
        Options {
            key_size,
            index_size,
            slot_capacity,
            user_version,
            ordered,
            role,
        },
    );
    match checked {
        Ok(counts) => counts.live,
        Err(_) => 0,
    }
}

// The number of TOMBSTONE buckets where the full check answers 0, else 0.
#[unsafe(no_mangle)]
pub extern "C" fn slc1_full_check_tombstones(
    image: &[u8],
    key_size: u64,
    index_size: u64,
    slot_capacity: u64,
    user_version: u64,
    ordered: u64,
    role: u64,
) -> u64
    ensures { result ≡ (check_of (options_of key_size index_size slot_capacity user_version ordered role) image.now).tombstones }
{
    let checked = full_check(
        image,
        Options {
            key_size,
            index_size,
            slot_capacity,
            user_version,
            ordered,
            role,
        },
    );
    match checked {
        Ok(counts) => counts.tombstones,
        Err(_) => 0,
    }
}

// The sum of lookup counts over live keys where the full check answers 0, else 0.
#[unsafe(no_mangle)]
pub extern "C" fn slc1_full_check_probes(
    image: &[u8],
    key_size: u64,
    index_size: u64,
    slot_capacity: u64,
    user_version: u64,
    ordered: u64,
    role: u64,
) -> u64
    ensures { result ≡ (check_of (options_of key_size index_size slot_capacity user_version ordered role) image.now).probes }
{
    let checked = full_check(
        image,
        Options {
            key_size,
            index_size,
            slot_capacity,
            user_version,
            ordered,
            role,
        },
    );
    match checked {
        Ok(counts) => counts.probes,
        Err(_) => 0,
    }
}

// Writes the answer, the number of live slots, that of TOMBSTONE buckets and the sum of lookup counts to the start of a lent list,
// whatever the answer is, and answers it. 11 comes before all else, where the list is shorter than 4, and leaves it alone.
#[unsafe(no_mangle)]
pub extern "C" fn slc1_full_check_results(
    image: &[u8],
    key_size: u64,
    index_size: u64,
    slot_capacity: u64,
    user_version: u64,
    ordered: u64,
    role: u64,
    results: &mut [u64],
) -> u32
    ensures { Reports (check_report (check_of (options_of key_size index_size slot_capacity user_version ordered role) image.now) results.old) result results.new }
{
    if results.len() < FULL_CHECK_RESULTS {
        return Refusal::TooShort.number();
    }
    let o = Options {
        key_size,
        index_size,
        slot_capacity,
        user_version,
        ordered,
        role,
    };
    let checked = full_check(image, o);
    let answer = number_of(&checked);
    let counts = checked.unwrap_or(Counts {
        live: 0,
        tombstones: 0,
        probes: 0,
    });
    let all = [
        u64::from(answer),
        counts.live,
        counts.tombstones,
        counts.probes,
    ];
    copy_to(results, 0, &all);
    answer
}
