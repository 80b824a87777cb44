// The digests of bytes.
ghost use Rattle.std.specs.Prelude.{◌≡◌};
ghost use Rattle.digests.specs.Fnv.{fnv1a64};
ghost use Rattle.digests.specs.Crc.{crc32c};

// FNV-1a of 64 bits.
#[unsafe(no_mangle)]
pub extern "C" fn slc1_fnv1a64(bytes: &[u8]) -> u64
    ensures { result ≡ fnv1a64 bytes.now }
{
    host::digest::slc1_fnv1a64(bytes)
}

// CRC32-C.
#[unsafe(no_mangle)]
pub extern "C" fn slc1_crc32c(bytes: &[u8]) -> u32
    ensures { result ≡ crc32c bytes.now }
{
    host::digest::slc1_crc32c(bytes)
}
