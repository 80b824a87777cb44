// Sizes and places that a host needs to lend an image and to read a slot in it.
ghost use Rattle.std.specs.Prelude.{◌≡◌};
ghost use Rattle.host.specs.Options.{options_of};
ghost use Rattle.host.specs.Places.{total_of, key_place, index_place};

// The total size of an image that create makes, in bytes; 0 where it would refuse the options.
#[unsafe(no_mangle)]
pub extern "C" fn slc1_total_size(
    key_size: u64,
    index_size: u64,
    slot_capacity: u64,
    user_version: u64,
    ordered: u64,
    role: u64,
) -> u64
    ensures { result ≡ total_of (options_of key_size index_size slot_capacity user_version ordered role) }
{
    host::sizes::slc1_total_size(
        key_size,
        index_size,
        slot_capacity,
        user_version,
        ordered,
        role,
    )
}

// Where the key of a slot begins in the image; 0 where the options are outside the sizes or there can be no
// such slot.
#[unsafe(no_mangle)]
pub extern "C" fn slc1_key_offset(
    key_size: u64,
    index_size: u64,
    slot_capacity: u64,
    user_version: u64,
    ordered: u64,
    role: u64,
    slot: u64,
) -> u64
    ensures { result ≡ key_place (options_of key_size index_size slot_capacity user_version ordered role) slot }
{
    host::sizes::slc1_key_offset(
        key_size,
        index_size,
        slot_capacity,
        user_version,
        ordered,
        role,
        slot,
    )
}

// Where the index of a slot begins in the image; 0 where the options are outside the sizes or there can be no
// such slot.
#[unsafe(no_mangle)]
pub extern "C" fn slc1_index_offset(
    key_size: u64,
    index_size: u64,
    slot_capacity: u64,
    user_version: u64,
    ordered: u64,
    role: u64,
    slot: u64,
) -> u64
    ensures { result ≡ index_place (options_of key_size index_size slot_capacity user_version ordered role) slot }
{
    host::sizes::slc1_index_offset(
        key_size,
        index_size,
        slot_capacity,
        user_version,
        ordered,
        role,
        slot,
    )
}
