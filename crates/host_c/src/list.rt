// Scan and match: a call for each of their numbers, and one for all of them. Each makes the whole call, and fills the lent list.
ghost use Rattle.host.specs.Listing.{Hands};
ghost use Rattle.host.specs.Options.{options_of};
ghost use Rattle.host.specs.Results.{ReportsListing, listing_report};
ghost use Rattle.listing.specs.Match.{match_of};
ghost use Rattle.listing.specs.Scan.{scan_of};

// Scan. 0, or the number that refuses the call.
#[unsafe(no_mangle)]
pub extern "C" fn slc1_scan(
    image: &[u8],
    key_size: u64,
    index_size: u64,
    slot_capacity: u64,
    user_version: u64,
    ordered: u64,
    role: u64,
    skip: u64,
    limit: u64,
    numbers: &mut [u32],
) -> u32
    ensures { Hands (λ l. l.answer) (scan_of (options_of key_size index_size slot_capacity user_version ordered role) image.now skip limit numbers.old) result numbers.new }
{
    host::list::slc1_scan(
        image,
        key_size,
        index_size,
        slot_capacity,
        user_version,
        ordered,
        role,
        skip,
        limit,
        numbers,
    )
}

// Scan. The total number of matches, 0 where the call is refused.
#[unsafe(no_mangle)]
pub extern "C" fn slc1_scan_total(
    image: &[u8],
    key_size: u64,
    index_size: u64,
    slot_capacity: u64,
    user_version: u64,
    ordered: u64,
    role: u64,
    skip: u64,
    limit: u64,
    numbers: &mut [u32],
) -> u64
    ensures { Hands (λ l. l.total) (scan_of (options_of key_size index_size slot_capacity user_version ordered role) image.now skip limit numbers.old) result numbers.new }
{
    host::list::slc1_scan_total(
        image,
        key_size,
        index_size,
        slot_capacity,
        user_version,
        ordered,
        role,
        skip,
        limit,
        numbers,
    )
}

// Scan. The number of entries written, 0 where the call is refused.
#[unsafe(no_mangle)]
pub extern "C" fn slc1_scan_written(
    image: &[u8],
    key_size: u64,
    index_size: u64,
    slot_capacity: u64,
    user_version: u64,
    ordered: u64,
    role: u64,
    skip: u64,
    limit: u64,
    numbers: &mut [u32],
) -> u64
    ensures { Hands (λ l. l.written) (scan_of (options_of key_size index_size slot_capacity user_version ordered role) image.now skip limit numbers.old) result numbers.new }
{
    host::list::slc1_scan_written(
        image,
        key_size,
        index_size,
        slot_capacity,
        user_version,
        ordered,
        role,
        skip,
        limit,
        numbers,
    )
}

// Scan. Writes the answer, the total and the number of entries written to the start of a lent list of results, whatever the answer
// is, and answers it. 11 comes before all else, where that list is shorter than 3, and leaves both lists alone.
#[unsafe(no_mangle)]
pub extern "C" fn slc1_scan_results(
    image: &[u8],
    key_size: u64,
    index_size: u64,
    slot_capacity: u64,
    user_version: u64,
    ordered: u64,
    role: u64,
    skip: u64,
    limit: u64,
    numbers: &mut [u32],
    results: &mut [u64],
) -> u32
    ensures { ReportsListing (listing_report (scan_of (options_of key_size index_size slot_capacity user_version ordered role) image.now skip limit numbers.old) numbers.old results.old) result numbers.new results.new }
{
    host::list::slc1_scan_results(
        image,
        key_size,
        index_size,
        slot_capacity,
        user_version,
        ordered,
        role,
        skip,
        limit,
        numbers,
        results,
    )
}

// Match. 0, or the number that refuses the call.
#[unsafe(no_mangle)]
pub extern "C" fn slc1_match(
    image: &[u8],
    key_size: u64,
    index_size: u64,
    slot_capacity: u64,
    user_version: u64,
    ordered: u64,
    role: u64,
    offset: u64,
    bits: u64,
    pattern: &[u8],
    skip: u64,
    limit: u64,
    numbers: &mut [u32],
) -> u32
    ensures { Hands (λ l. l.answer) (match_of (options_of key_size index_size slot_capacity user_version ordered role) image.now offset bits pattern.now skip limit numbers.old) result numbers.new }
{
    host::list::slc1_match(
        image,
        key_size,
        index_size,
        slot_capacity,
        user_version,
        ordered,
        role,
        offset,
        bits,
        pattern,
        skip,
        limit,
        numbers,
    )
}

// Match. The total number of matches, 0 where the call is refused.
#[unsafe(no_mangle)]
pub extern "C" fn slc1_match_total(
    image: &[u8],
    key_size: u64,
    index_size: u64,
    slot_capacity: u64,
    user_version: u64,
    ordered: u64,
    role: u64,
    offset: u64,
    bits: u64,
    pattern: &[u8],
    skip: u64,
    limit: u64,
    numbers: &mut [u32],
) -> u64
    ensures { Hands (λ l. l.total) (match_of (options_of key_size index_size slot_capacity user_version ordered role) image.now offset bits pattern.now skip limit numbers.old) result numbers.new }
{
    host::list::slc1_match_total(
        image,
        key_size,
        index_size,
        slot_capacity,
        user_version,
        ordered,
        role,
        offset,
        bits,
        pattern,
        skip,
        limit,
        numbers,
    )
}

// Match. The number of entries written, 0 where the call is refused.
#[unsafe(no_mangle)]
pub extern "C" fn slc1_match_written(
    image: &[u8],
    key_size: u64,
    index_size: u64,
    slot_capacity: u64,
    user_version: u64,
    ordered: u64,
    role: u64,
    offset: u64,
    bits: u64,
    pattern: &[u8],
    skip: u64,
    limit: u64,
    numbers: &mut [u32],
) -> u64
    ensures { Hands (λ l. l.written) (match_of (options_of key_size index_size slot_capacity user_version ordered role) image.now offset bits pattern.now skip limit numbers.old) result numbers.new }
{
    host::list::slc1_match_written(
        image,
        key_size,
        index_size,
        slot_capacity,
        user_version,
        ordered,
        role,
        offset,
        bits,
        pattern,
        skip,
        limit,
        numbers,
    )
}

// Match. Writes its three results as slc1_scan_results does.
#[unsafe(no_mangle)]
pub extern "C" fn slc1_match_results(
    image: &[u8],
    key_size: u64,
    index_size: u64,
    slot_capacity: u64,
    user_version: u64,
    ordered: u64,
    role: u64,
    offset: u64,
    bits: u64,
    pattern: &[u8],
    skip: u64,
    limit: u64,
    numbers: &mut [u32],
    results: &mut [u64],
) -> u32
    ensures { ReportsListing (listing_report (match_of (options_of key_size index_size slot_capacity user_version ordered role) image.now offset bits pattern.now skip limit numbers.old) numbers.old results.old) result numbers.new results.new }
{
    host::list::slc1_match_results(
        image,
        key_size,
        index_size,
        slot_capacity,
        user_version,
        ordered,
        role,
        offset,
        bits,
        pattern,
        skip,
        limit,
        numbers,
        results,
    )
}
