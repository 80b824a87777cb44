// How large an image is, by its own header; 0 where the header test refuses it.
ghost use Rattle.std.specs.Prelude.{◌≡◌};
ghost use Rattle.host.specs.Options.{options_of};
ghost use Rattle.header.specs.Extent.{extent_of};

// The number of its slots.
#[unsafe(no_mangle)]
pub extern "C" fn slc1_image_capacity(
    image: &[u8],
    key_size: u64,
    index_size: u64,
    slot_capacity: u64,
    user_version: u64,
    ordered: u64,
    role: u64,
) -> u64
    ensures { result ≡ (extent_of (options_of key_size index_size slot_capacity user_version ordered role) image.now).capacity }
{
    host::extent::slc1_image_capacity(
        image,
        key_size,
        index_size,
        slot_capacity,
        user_version,
        ordered,
        role,
    )
}

// The number of its buckets.
#[unsafe(no_mangle)]
pub extern "C" fn slc1_image_buckets(
    image: &[u8],
    key_size: u64,
    index_size: u64,
    slot_capacity: u64,
    user_version: u64,
    ordered: u64,
    role: u64,
) -> u64
    ensures { result ≡ (extent_of (options_of key_size index_size slot_capacity user_version ordered role) image.now).buckets }
{
    host::extent::slc1_image_buckets(
        image,
        key_size,
        index_size,
        slot_capacity,
        user_version,
        ordered,
        role,
    )
}

// The number of its bytes.
#[unsafe(no_mangle)]
pub extern "C" fn slc1_image_total(
    image: &[u8],
    key_size: u64,
    index_size: u64,
    slot_capacity: u64,
    user_version: u64,
    ordered: u64,
    role: u64,
) -> u64
    ensures { result ≡ (extent_of (options_of key_size index_size slot_capacity user_version ordered role) image.now).total }
{
    host::extent::slc1_image_total(
        image,
        key_size,
        index_size,
        slot_capacity,
        user_version,
        ordered,
        role,
    )
}
