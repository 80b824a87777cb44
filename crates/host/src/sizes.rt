// Sizes and places that a host needs to lend an image and to read a slot in it.
ghost use Rattle.std.specs.Prelude.{◌≡◌};
ghost use Rattle.host.specs.Options.{options_of};
ghost use Rattle.host.specs.Places.{total_of, slots_for, place_of, key_place, index_place};

use header::judge::{create_options_test, options_test};
use header::options::Options;
use header::sizes::{MOST_SLOT_CAPACITY, align8, slot_size, total_size};

// The slots that there can be under an option: with 0, which is what the header says, as many as any image may have.
#[tactic(auto, unfolding(crate::specs::Places::slots_for))]
fn slots_for(option: u64) -> u64
    ensures { result ≡ slots_for option }
{
    if option == 0 {
        return MOST_SLOT_CAPACITY;
    }
    option
}

// Where a slot begins in the image; none where the options are outside the sizes or there can be no such slot.
#[tactic(auto, unfolding(crate::specs::Places::place_of, crate::specs::Places::slots_for))]
fn slot_place(o: Options, slot: u64) -> Option<u64>
    ensures { result ≡ place_of o slot }
{
    let Ok(()) = options_test(o) else {
        return None;
    };
    if slots_for(o.slot_capacity) <= slot {
        return None;
    }
    Some(256 + slot * slot_size(o.key_size, o.index_size))
}

// The total size of an image that create makes, in bytes; 0 where it would refuse the options.
#[unsafe(no_mangle)]
pub extern "C" fn slc1_total_size(
    key_size: u64,
    index_size: u64,
    slot_capacity: u64,
    user_version: u64,
    ordered: u64,
    role: u64,
) -> u64
    ensures { result ≡ total_of (options_of key_size index_size slot_capacity user_version ordered role) }
{
    let o = Options {
        key_size,
        index_size,
        slot_capacity,
        user_version,
        ordered,
        role,
    };
    match create_options_test(o) {
        Ok(()) => total_size(o),
        Err(_) => 0,
    }
}

// Where the key of a slot begins in the image; 0 where the options are outside the sizes or there can be no
// such slot.
#[unsafe(no_mangle)]
pub extern "C" fn slc1_key_offset(
    key_size: u64,
    index_size: u64,
    slot_capacity: u64,
    user_version: u64,
    ordered: u64,
    role: u64,
    slot: u64,
) -> u64
    ensures { result ≡ key_place (options_of key_size index_size slot_capacity user_version ordered role) slot }
{
    let o = Options {
        key_size,
        index_size,
        slot_capacity,
        user_version,
        ordered,
        role,
    };
    match slot_place(o, slot) {
        Some(start) => start + 8,
        None => 0,
    }
}

// Where the index of a slot begins in the image; 0 where the options are outside the sizes or there can be no
// such slot.
#[unsafe(no_mangle)]
pub extern "C" fn slc1_index_offset(
    key_size: u64,
    index_size: u64,
    slot_capacity: u64,
    user_version: u64,
    ordered: u64,
    role: u64,
    slot: u64,
) -> u64
    ensures { result ≡ index_place (options_of key_size index_size slot_capacity user_version ordered role) slot }
{
    let o = Options {
        key_size,
        index_size,
        slot_capacity,
        user_version,
        ordered,
        role,
    };
    match slot_place(o, slot) {
        Some(start) => start + 16 + align8(key_size),
        None => 0,
    }
}
