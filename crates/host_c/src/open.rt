// Open check, and the user fields.
ghost use Rattle.std.specs.Prelude.{◌≡◌};
ghost use Rattle.host.specs.Options.{options_of};
ghost use Rattle.header.specs.Open.{open_of};
ghost use Rattle.host.specs.UserData.{Fills, user_data_of};

// The header test: 0, or the number that refuses the image.
#[unsafe(no_mangle)]
pub extern "C" fn slc1_open_check(
    image: &[u8],
    key_size: u64,
    index_size: u64,
    slot_capacity: u64,
    user_version: u64,
    ordered: u64,
    role: u64,
) -> u32
    ensures { result ≡ (open_of (options_of key_size index_size slot_capacity user_version ordered role) image.now).answer }
{
    host::open::slc1_open_check(
        image,
        key_size,
        index_size,
        slot_capacity,
        user_version,
        ordered,
        role,
    )
}

// The user flags where the open check answers 0, else 0.
#[unsafe(no_mangle)]
pub extern "C" fn slc1_user_flags(
    image: &[u8],
    key_size: u64,
    index_size: u64,
    slot_capacity: u64,
    user_version: u64,
    ordered: u64,
    role: u64,
) -> u64
    ensures { result ≡ (open_of (options_of key_size index_size slot_capacity user_version ordered role) image.now).fields.user_flags }
{
    host::open::slc1_user_flags(
        image,
        key_size,
        index_size,
        slot_capacity,
        user_version,
        ordered,
        role,
    )
}

// Writes the 64 bytes of user data to the start of a lent buffer: the open check's number, then 11 where the buffer is shorter than
// 64 bytes. Any number but 0 leaves the buffer alone; bytes past the 64 stay.
#[unsafe(no_mangle)]
pub extern "C" fn slc1_user_data(
    image: &[u8],
    key_size: u64,
    index_size: u64,
    slot_capacity: u64,
    user_version: u64,
    ordered: u64,
    role: u64,
    out: &mut [u8],
) -> u32
    ensures { Fills (user_data_of (options_of key_size index_size slot_capacity user_version ordered role) image.now out.old) result out.new }
{
    host::open::slc1_user_data(
        image,
        key_size,
        index_size,
        slot_capacity,
        user_version,
        ordered,
        role,
        out,
    )
}
