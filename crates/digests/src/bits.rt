// What so many bits of CRC32-C make of a number: bit by bit, and looked up.
ghost use Rattle.std.specs.Prelude.{◌≡◌, ◌^◌, ◌<◌, ◌≤◌};
ghost use Rattle.digests.specs.Crc.{crc_bit, crc_bits};

use crate::columns::{Columns, of_word};

// One bit.
fn one_bit(x: u64) -> u64
    ensures { result ≡ crc_bit x }
{
    if x % 2 == 1 {
        return (x / 2) ^ 0x82F63B78;
    }
    x / 2
}

// n bits, one after the other. Apart from its callers: these are on the way of each lookup, and it is not.
#[cold]
#[inline(never)]
pub fn by_bits(x: u64, n: usize) -> u32
    requires { 32 ≤ n }
    ensures { result ≡ crc_bits n x }
{
    let mut state = x;
    for _ in 0..n {
        state = one_bit(state);
    }
    state as u32
}

// 8 bits.
const BITS_8: Columns<8, 2> = Columns {
    digits: [
        [0xF26B8303, 0xE13B70F7, 0xC79A971F, 0x8AD958CF, 0x105EC76F],
        [0x20BD8EDE, 0x417B1DBC, 0x82F63B78, 0x00000001, 0x00000002],
    ],
};

// 64 bits, of the low part of a word.
const BITS_64: Columns<64, 7> = Columns {
    digits: [
        [0x493C7D27, 0x9278FA4E, 0x211D826D, 0x423B04DA, 0x847609B4],
        [0x0D006599, 0x1A00CB32, 0x34019664, 0x68032CC8, 0xD0065990],
        [0xA5E0C5D1, 0x4E2DFD53, 0x9C5BFAA6, 0x3D5B83BD, 0x7AB7077A],
        [0xF56E0EF4, 0xEF306B19, 0xDB8CA0C3, 0xB2F53777, 0x6006181F],
        [0xC00C303E, 0x85F4168D, 0x0E045BEB, 0x1C08B7D6, 0x38116FAC],
        [0x7022DF58, 0xE045BEB0, 0xC5670B91, 0x8F2261D3, 0x1BA8B557],
        [0x37516AAE, 0x6EA2D55C, 0xDD45AAB8, 0xBF672381, 0x7B2231F3],
    ],
};

// 29 bits, of its high part.
const BITS_29: Columns<29, 6> = Columns {
    digits: [
        [0xF64463E6, 0xE964B13D, 0xD725148B, 0xABA65FE7, 0x52A0C93F],
        [0xA541927E, 0x4F6F520D, 0x9EDEA41A, 0x38513EC5, 0x70A27D8A],
        [0xE144FB14, 0xC76580D9, 0x8B277743, 0x13A29877, 0x274530EE],
        [0x4E8A61DC, 0x9D14C3B8, 0x3FC5F181, 0x7F8BE302, 0xFF17C604],
        [0xFBC3FAF9, 0xF26B8303, 0xE13B70F7, 0xC79A971F, 0x8AD958CF],
        [0x105EC76F, 0x20BD8EDE, 0x417B1DBC, 0x82F63B78, 0x00000001],
    ],
};

// 512 bits.
const BITS_512: Columns<512, 7> = Columns {
    digits: [
        [0x740EEF02, 0xE81DDE04, 0xD5D7CAF9, 0xAE43E303, 0x596BB0F7],
        [0xB2D761EE, 0x6042B52D, 0xC0856A5A, 0x84E6A245, 0x0C21327B],
        [0x184264F6, 0x3084C9EC, 0x610993D8, 0xC21327B0, 0x81CA3991],
        [0x067805D3, 0x0CF00BA6, 0x19E0174C, 0x33C02E98, 0x67805D30],
        [0xCF00BA60, 0x9BED0231, 0x32367293, 0x646CE526, 0xC8D9CA4C],
        [0x945FE269, 0x2D53B223, 0x5AA76446, 0xB54EC88C, 0x6F71E7E9],
        [0xDEE3CFD2, 0xB82BE955, 0x75BBA45B, 0xEB7748B6, 0xD302E79D],
    ],
};

// 8 bits of a byte.
pub fn bits_8(x: u64) -> u32
    requires { x < 256 }
    ensures { result ≡ crc_bits 8 x }
{
    BITS_8.mix(x)
}

// 64 bits of a word.
pub fn bits_64(x: u64) -> u32
    ensures { result ≡ crc_bits 64 x }
{
    of_word(&BITS_64, &BITS_29, x)
}

// 512 bits of a state.
pub fn bits_512(x: u64) -> u32
    requires { x < 2 ^ 32 }
    ensures { result ≡ crc_bits 512 x }
{
    BITS_512.mix(x)
}
