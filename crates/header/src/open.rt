// Open check: the header test alone, and the user fields of an image that passes.
ghost use Rattle.std.specs.Prelude.{◌≡◌};
ghost use Rattle.header.specs.Open.{user_fields, opened, open_of};

use crate::fields::{Header, Name};
use crate::judge::header_test;
use crate::options::Options;
use crate::refusal::Refusal;

// The user data are so many bytes.
pub const USER_DATA_SIZE: usize = 64;

// The fields that are the caller's own, by value.
#[derive(Drop)]
pub struct UserFields {
    pub user_flags: u64,
    pub user_data: [u8; USER_DATA_SIZE],
}

// The user fields of an image.
fn user_fields(header: &Header) -> UserFields
    ensures { result ≡ user_fields header.now }
{
    let mut user_data = [0u8; USER_DATA_SIZE];
    user_data.copy_from_slice(header.bytes_in(Name::UserData));
    UserFields {
        user_flags: header.read(Name::UserFlags),
        user_data,
    }
}

// Makes the header test, and hands out the user fields of an image that passes.
pub fn open_check(image: &[u8], o: Options) -> Result<UserFields, Refusal>
    ensures { opened result ≡ open_of o image.now }
{
    let header = header_test(image, o)?;
    Ok(user_fields(&header))
}
