// Create and the writing calls. Any number but 0 leaves every lent byte alone.
ghost use Rattle.std.specs.Prelude.{◌≡◌};
ghost use Rattle.header.specs.Answer.{invalid_input, answer};
ghost use Rattle.header.specs.HeaderTest.{header_test, after_test};
ghost use Rattle.soundness.specs.Commit.{commit_of};
ghost use Rattle.writing.specs.Create.{create_of};
ghost use Rattle.writing.specs.Write.{Leaves};
ghost use Rattle.writing.specs.State.{begin_of, checkpoint_of, invalidate_of};
ghost use Rattle.host.specs.Options.{options_of};
ghost use Rattle.host.specs.UserData.{set_user_fields_from};

use commit::commit::commit_batch;
use header::judge::judge;
use header::open::{USER_DATA_SIZE, UserFields};
use header::options::Options;
use header::refusal::{Refusal, number_of};
use writing::create::create;
use writing::state::{begin, checkpoint, invalidate, set_user_fields};

// Writes a fresh image to the start of a lent buffer: 0, 7 where the options are outside the sizes, 11 where the buffer is too short.
#[unsafe(no_mangle)]
pub extern "C" fn slc1_create(
    buffer: &mut [u8],
    key_size: u64,
    index_size: u64,
    slot_capacity: u64,
    user_version: u64,
    ordered: u64,
    role: u64,
) -> u32
    ensures { Leaves (create_of (options_of key_size index_size slot_capacity user_version ordered role) buffer.old) result buffer.new }
{
    number_of(&create(
        buffer,
        Options {
            key_size,
            index_size,
            slot_capacity,
            user_version,
            ordered,
            role,
        },
    ))
}

// CLEAN becomes DIRTY; on DIRTY nothing changes.
#[unsafe(no_mangle)]
pub extern "C" fn slc1_begin(
    image: &mut [u8],
    key_size: u64,
    index_size: u64,
    slot_capacity: u64,
    user_version: u64,
    ordered: u64,
    role: u64,
) -> u32
    ensures { Leaves (begin_of (options_of key_size index_size slot_capacity user_version ordered role) image.old) result image.new }
{
    number_of(&begin(
        image,
        Options {
            key_size,
            index_size,
            slot_capacity,
            user_version,
            ordered,
            role,
        },
    ))
}

// DIRTY becomes CLEAN; on CLEAN nothing changes.
#[unsafe(no_mangle)]
pub extern "C" fn slc1_checkpoint(
    image: &mut [u8],
    key_size: u64,
    index_size: u64,
    slot_capacity: u64,
    user_version: u64,
    ordered: u64,
    role: u64,
) -> u32
    ensures { Leaves (checkpoint_of (options_of key_size index_size slot_capacity user_version ordered role) image.old) result image.new }
{
    number_of(&checkpoint(
        image,
        Options {
            key_size,
            index_size,
            slot_capacity,
            user_version,
            ordered,
            role,
        },
    ))
}

// CLEAN or DIRTY becomes INVALIDATED, for good.
#[unsafe(no_mangle)]
pub extern "C" fn slc1_invalidate(
    image: &mut [u8],
    key_size: u64,
    index_size: u64,
    slot_capacity: u64,
    user_version: u64,
    ordered: u64,
    role: u64,
) -> u32
    ensures { Leaves (invalidate_of (options_of key_size index_size slot_capacity user_version ordered role) image.old) result image.new }
{
    number_of(&invalidate(
        image,
        Options {
            key_size,
            index_size,
            slot_capacity,
            user_version,
            ordered,
            role,
        },
    ))
}

// Why user data of another length are refused: what the header test says, and where the image passes 7.
fn other_length(image: &[u8], o: Options) -> Result<(), Refusal>
    ensures { answer result ≡ after_test (header_test o image.now) invalid_input (λ n. n) }
{
    judge(image, o)?;
    Err(Refusal::InvalidInput)
}

// Replaces user_flags and user_data. The data are exactly 64 bytes: 7 otherwise, after the header test.
#[unsafe(no_mangle)]
pub extern "C" fn slc1_set_user_fields(
    image: &mut [u8],
    key_size: u64,
    index_size: u64,
    slot_capacity: u64,
    user_version: u64,
    ordered: u64,
    role: u64,
    user_flags: u64,
    user_data: &[u8],
) -> u32
    ensures { Leaves (set_user_fields_from (options_of key_size index_size slot_capacity user_version ordered role) image.old user_flags user_data.now) result image.new }
{
    let o = Options {
        key_size,
        index_size,
        slot_capacity,
        user_version,
        ordered,
        role,
    };
    if user_data.len() != USER_DATA_SIZE {
        return number_of(&other_length(image, o));
    }
    let mut bytes = [0u8; USER_DATA_SIZE];
    bytes.copy_from_slice(user_data);
    number_of(&set_user_fields(
        image,
        o,
        UserFields {
            user_flags,
            user_data: bytes,
        },
    ))
}

// Commits a batch: 0, or the number of the first reason that refuses it, every byte then left alone.
#[unsafe(no_mangle)]
pub extern "C" fn slc1_commit(
    image: &mut [u8],
    key_size: u64,
    index_size: u64,
    slot_capacity: u64,
    user_version: u64,
    ordered: u64,
    role: u64,
    batch: &[u8],
) -> u32
    ensures { Leaves (commit_of (options_of key_size index_size slot_capacity user_version ordered role) image.old batch.now) result image.new }
{
    number_of(&commit_batch(
        image,
        Options {
            key_size,
            index_size,
            slot_capacity,
            user_version,
            ordered,
            role,
        },
        batch,
    ))
}
