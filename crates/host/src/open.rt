// Open check, and the user fields.
ghost use Rattle.std.specs.Prelude.{◌≡◌};
ghost use Rattle.host.specs.Options.{options_of};
ghost use Rattle.header.specs.Open.{open_of};
ghost use Rattle.host.specs.UserData.{Fills, user_data_of};

use header::open::{USER_DATA_SIZE, open_check};
use header::options::Options;
use header::refusal::{DONE, Refusal, number_of};
use numbers::parts::copy_to;

// The header test: 0, or the number that refuses the image.
#[unsafe(no_mangle)]
pub extern "C" fn slc1_open_check(
    image: &[u8],
    key_size: u64,
    index_size: u64,
    slot_capacity: u64,
    user_version: u64,
    ordered: u64,
    role: u64,
) -> u32
    ensures { result ≡ (open_of (options_of key_size index_size slot_capacity user_version ordered role) image.now).answer }
{
    let opened = open_check(
        image,
        Options {
            key_size,
            index_size,
            slot_capacity,
            user_version,
            ordered,
            role,
        },
    );
    number_of(&opened)
}

// The user flags where the open check answers 0, else 0.
#[tactic(auto, unfolding(header::specs::Open::no_fields))]
#[unsafe(no_mangle)]
pub extern "C" fn slc1_user_flags(
    image: &[u8],
    key_size: u64,
    index_size: u64,
    slot_capacity: u64,
    user_version: u64,
    ordered: u64,
    role: u64,
) -> u64
    ensures { result ≡ (open_of (options_of key_size index_size slot_capacity user_version ordered role) image.now).fields.user_flags }
{
    let opened = open_check(
        image,
        Options {
            key_size,
            index_size,
            slot_capacity,
            user_version,
            ordered,
            role,
        },
    );
    match opened {
        Ok(fields) => fields.user_flags,
        Err(_) => 0,
    }
}

// Writes the 64 bytes of user data to the start of a lent buffer: the open check's number, then 11 where the buffer is shorter than
// 64 bytes. Any number but 0 leaves the buffer alone; bytes past the 64 stay.
#[unsafe(no_mangle)]
pub extern "C" fn slc1_user_data(
    image: &[u8],
    key_size: u64,
    index_size: u64,
    slot_capacity: u64,
    user_version: u64,
    ordered: u64,
    role: u64,
    out: &mut [u8],
) -> u32
    ensures { Fills (user_data_of (options_of key_size index_size slot_capacity user_version ordered role) image.now out.old) result out.new }
{
    let opened = open_check(
        image,
        Options {
            key_size,
            index_size,
            slot_capacity,
            user_version,
            ordered,
            role,
        },
    );
    match opened {
        Ok(fields) => {
            if out.len() < USER_DATA_SIZE {
                return Refusal::TooShort.number();
            }
            copy_to(out, 0, &fields.user_data);
            DONE
        }
        Err(refusal) => refusal.number(),
    }
}
