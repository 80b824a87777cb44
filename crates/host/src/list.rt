// Scan and match: a call for each of their numbers, and one for all of them. Each makes the whole call, and fills the lent list.
ghost use Rattle.std.specs.Prelude.{◌≤◌, length};
ghost use Rattle.host.specs.Listing.{Hands};
ghost use Rattle.host.specs.Options.{options_of};
ghost use Rattle.host.specs.Results.{Reports, ReportsListing, listed_report, listing_report};
ghost use Rattle.listing.specs.Match.{match_of};
ghost use Rattle.listing.specs.Scan.{scan_of, told};

use crate::results::LISTING_RESULTS;
use header::options::Options;
use header::refusal::{Refusal, number_of};
use listing::listed::Listing;
use listing::matching::match_bits;
use listing::scan::scan;
use numbers::parts::copy_to;

// Writes the three results of a listing to the start of a lent list that has room for them, and answers its number.
fn report_listing(listed: Result<Listing, Refusal>, results: &mut [u64]) -> u32
    requires { 3 ≤ length results.old }
    ensures { Reports (listed_report (told listed) results.old) result results.new }
{
    let answer = number_of(&listed);
    let listing = listed.unwrap_or(Listing {
        total: 0,
        written: 0,
    });
    let all = [u64::from(answer), listing.total, listing.written];
    copy_to(results, 0, &all);
    answer
}

// Scan. 0, or the number that refuses the call.
#[unsafe(no_mangle)]
pub extern "C" fn slc1_scan(
    image: &[u8],
    key_size: u64,
    index_size: u64,
    slot_capacity: u64,
    user_version: u64,
    ordered: u64,
    role: u64,
    skip: u64,
    limit: u64,
    numbers: &mut [u32],
) -> u32
    ensures { Hands (λ l. l.answer) (scan_of (options_of key_size index_size slot_capacity user_version ordered role) image.now skip limit numbers.old) result numbers.new }
{
    let listed = scan(
        image,
        Options {
            key_size,
            index_size,
            slot_capacity,
            user_version,
            ordered,
            role,
        },
        skip,
        limit,
        numbers,
    );
    number_of(&listed)
}

// Scan. The total number of matches, 0 where the call is refused.
#[unsafe(no_mangle)]
pub extern "C" fn slc1_scan_total(
    image: &[u8],
    key_size: u64,
    index_size: u64,
    slot_capacity: u64,
    user_version: u64,
    ordered: u64,
    role: u64,
    skip: u64,
    limit: u64,
    numbers: &mut [u32],
) -> u64
    ensures { Hands (λ l. l.total) (scan_of (options_of key_size index_size slot_capacity user_version ordered role) image.now skip limit numbers.old) result numbers.new }
{
    let scanned = scan(
        image,
        Options {
            key_size,
            index_size,
            slot_capacity,
            user_version,
            ordered,
            role,
        },
        skip,
        limit,
        numbers,
    );
    match scanned {
        Ok(listed) => listed.total,
        Err(_) => 0,
    }
}

// Scan. The number of entries written, 0 where the call is refused.
#[unsafe(no_mangle)]
pub extern "C" fn slc1_scan_written(
    image: &[u8],
    key_size: u64,
    index_size: u64,
    slot_capacity: u64,
    user_version: u64,
    ordered: u64,
    role: u64,
    skip: u64,
    limit: u64,
    numbers: &mut [u32],
) -> u64
    ensures { Hands (λ l. l.written) (scan_of (options_of key_size index_size slot_capacity user_version ordered role) image.now skip limit numbers.old) result numbers.new }
{
    let scanned = scan(
        image,
        Options {
            key_size,
            index_size,
            slot_capacity,
            user_version,
            ordered,
            role,
        },
        skip,
        limit,
        numbers,
    );
    match scanned {
        Ok(listed) => listed.written,
        Err(_) => 0,
    }
}

// Scan. Writes the answer, the total and the number of entries written to the start of a lent list of results, whatever the answer
// is, and answers it. 11 comes before all else, where that list is shorter than 3, and leaves both lists alone.
#[unsafe(no_mangle)]
pub extern "C" fn slc1_scan_results(
    image: &[u8],
    key_size: u64,
    index_size: u64,
    slot_capacity: u64,
    user_version: u64,
    ordered: u64,
    role: u64,
    skip: u64,
    limit: u64,
    numbers: &mut [u32],
    results: &mut [u64],
) -> u32
    ensures { ReportsListing (listing_report (scan_of (options_of key_size index_size slot_capacity user_version ordered role) image.now skip limit numbers.old) numbers.old results.old) result numbers.new results.new }
{
    if results.len() < LISTING_RESULTS {
        return Refusal::TooShort.number();
    }
    let o = Options {
        key_size,
        index_size,
        slot_capacity,
        user_version,
        ordered,
        role,
    };
    let scanned = scan(image, o, skip, limit, numbers);
    report_listing(scanned, results)
}

// Match. 0, or the number that refuses the call.
#[unsafe(no_mangle)]
pub extern "C" fn slc1_match(
    image: &[u8],
    key_size: u64,
    index_size: u64,
    slot_capacity: u64,
    user_version: u64,
    ordered: u64,
    role: u64,
    offset: u64,
    bits: u64,
    pattern: &[u8],
    skip: u64,
    limit: u64,
    numbers: &mut [u32],
) -> u32
    ensures { Hands (λ l. l.answer) (match_of (options_of key_size index_size slot_capacity user_version ordered role) image.now offset bits pattern.now skip limit numbers.old) result numbers.new }
{
    let matched = match_bits(
        image,
        Options {
            key_size,
            index_size,
            slot_capacity,
            user_version,
            ordered,
            role,
        },
        offset,
        bits,
        pattern,
        skip,
        limit,
        numbers,
    );
    number_of(&matched)
}

// Match. The total number of matches, 0 where the call is refused.
#[unsafe(no_mangle)]
pub extern "C" fn slc1_match_total(
    image: &[u8],
    key_size: u64,
    index_size: u64,
    slot_capacity: u64,
    user_version: u64,
    ordered: u64,
    role: u64,
    offset: u64,
    bits: u64,
    pattern: &[u8],
    skip: u64,
    limit: u64,
    numbers: &mut [u32],
) -> u64
    ensures { Hands (λ l. l.total) (match_of (options_of key_size index_size slot_capacity user_version ordered role) image.now offset bits pattern.now skip limit numbers.old) result numbers.new }
{
    let selected = match_bits(
        image,
        Options {
            key_size,
            index_size,
            slot_capacity,
            user_version,
            ordered,
            role,
        },
        offset,
        bits,
        pattern,
        skip,
        limit,
        numbers,
    );
    match selected {
        Ok(matched) => matched.total,
        Err(_) => 0,
    }
}

// Match. The number of entries written, 0 where the call is refused.
#[unsafe(no_mangle)]
pub extern "C" fn slc1_match_written(
    image: &[u8],
    key_size: u64,
    index_size: u64,
    slot_capacity: u64,
    user_version: u64,
    ordered: u64,
    role: u64,
    offset: u64,
    bits: u64,
    pattern: &[u8],
    skip: u64,
    limit: u64,
    numbers: &mut [u32],
) -> u64
    ensures { Hands (λ l. l.written) (match_of (options_of key_size index_size slot_capacity user_version ordered role) image.now offset bits pattern.now skip limit numbers.old) result numbers.new }
{
    let selected = match_bits(
        image,
        Options {
            key_size,
            index_size,
            slot_capacity,
            user_version,
            ordered,
            role,
        },
        offset,
        bits,
        pattern,
        skip,
        limit,
        numbers,
    );
    match selected {
        Ok(matched) => matched.written,
        Err(_) => 0,
    }
}

// Match. Writes its three results as slc1_scan_results does.
#[unsafe(no_mangle)]
pub extern "C" fn slc1_match_results(
    image: &[u8],
    key_size: u64,
    index_size: u64,
    slot_capacity: u64,
    user_version: u64,
    ordered: u64,
    role: u64,
    offset: u64,
    bits: u64,
    pattern: &[u8],
    skip: u64,
    limit: u64,
    numbers: &mut [u32],
    results: &mut [u64],
) -> u32
    ensures { ReportsListing (listing_report (match_of (options_of key_size index_size slot_capacity user_version ordered role) image.now offset bits pattern.now skip limit numbers.old) numbers.old results.old) result numbers.new results.new }
{
    if results.len() < LISTING_RESULTS {
        return Refusal::TooShort.number();
    }
    let o = Options {
        key_size,
        index_size,
        slot_capacity,
        user_version,
        ordered,
        role,
    };
    let selected = match_bits(image, o, offset, bits, pattern, skip, limit, numbers);
    report_listing(selected, results)
}
