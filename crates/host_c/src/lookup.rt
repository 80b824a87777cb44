// Lookup: a call for each of its numbers, and one for all of them.
ghost use Rattle.std.specs.Prelude.{◌≡◌};
ghost use Rattle.host.specs.Options.{options_of};
ghost use Rattle.host.specs.Results.{Reports, lookup_report};
ghost use Rattle.image.specs.Lookup.{lookup_of};

// 0 found, 9 not present, or the number that refuses the call.
#[unsafe(no_mangle)]
pub extern "C" fn slc1_lookup(
    image: &[u8],
    key_size: u64,
    index_size: u64,
    slot_capacity: u64,
    user_version: u64,
    ordered: u64,
    role: u64,
    key: &[u8],
) -> u32
    ensures { result ≡ (lookup_of (options_of key_size index_size slot_capacity user_version ordered role) image.now key.now).answer }
{
    host::lookup::slc1_lookup(
        image,
        key_size,
        index_size,
        slot_capacity,
        user_version,
        ordered,
        role,
        key,
    )
}

// The slot of a key that is found, else 0.
#[unsafe(no_mangle)]
pub extern "C" fn slc1_lookup_slot(
    image: &[u8],
    key_size: u64,
    index_size: u64,
    slot_capacity: u64,
    user_version: u64,
    ordered: u64,
    role: u64,
    key: &[u8],
) -> u64
    ensures { result ≡ (lookup_of (options_of key_size index_size slot_capacity user_version ordered role) image.now key.now).slot }
{
    host::lookup::slc1_lookup_slot(
        image,
        key_size,
        index_size,
        slot_capacity,
        user_version,
        ordered,
        role,
        key,
    )
}

// The revision of a key that is found, else 0.
#[unsafe(no_mangle)]
pub extern "C" fn slc1_lookup_revision(
    image: &[u8],
    key_size: u64,
    index_size: u64,
    slot_capacity: u64,
    user_version: u64,
    ordered: u64,
    role: u64,
    key: &[u8],
) -> i64
    ensures { result ≡ (lookup_of (options_of key_size index_size slot_capacity user_version ordered role) image.now key.now).revision }
{
    host::lookup::slc1_lookup_revision(
        image,
        key_size,
        index_size,
        slot_capacity,
        user_version,
        ordered,
        role,
        key,
    )
}

// The number of buckets examined for a key that is found or not present, else 0.
#[unsafe(no_mangle)]
pub extern "C" fn slc1_lookup_buckets(
    image: &[u8],
    key_size: u64,
    index_size: u64,
    slot_capacity: u64,
    user_version: u64,
    ordered: u64,
    role: u64,
    key: &[u8],
) -> u64
    ensures { result ≡ (lookup_of (options_of key_size index_size slot_capacity user_version ordered role) image.now key.now).buckets }
{
    host::lookup::slc1_lookup_buckets(
        image,
        key_size,
        index_size,
        slot_capacity,
        user_version,
        ordered,
        role,
        key,
    )
}

// Writes the answer, the slot, the revision as a word of two's complement and the number of buckets to the start of a lent list,
// whatever the answer is, and answers it. 11 comes before all else, where the list is shorter than 4, and leaves it alone.
#[unsafe(no_mangle)]
pub extern "C" fn slc1_lookup_results(
    image: &[u8],
    key_size: u64,
    index_size: u64,
    slot_capacity: u64,
    user_version: u64,
    ordered: u64,
    role: u64,
    key: &[u8],
    results: &mut [u64],
) -> u32
    ensures { Reports (lookup_report (lookup_of (options_of key_size index_size slot_capacity user_version ordered role) image.now key.now) results.old) result results.new }
{
    host::lookup::slc1_lookup_results(
        image,
        key_size,
        index_size,
        slot_capacity,
        user_version,
        ordered,
        role,
        key,
        results,
    )
}
