// The front of a header, 0x00 to 0x77, by its fields: each goes by itself through all the bits from its first to the header's end, and
// they are put together by exclusive or. What stands at a place in a header that passes is looked up, and anything else taken bit by bit.
ghost use Rattle.std.specs.Prelude.{◌≡◌, ◌+◌, ◌≤◌, length, bit_xor};
ghost use Rattle.numbers.specs.Bytes.{part, word};
ghost use Rattle.digests.specs.Crc.{crc_bits};
ghost use Rattle.digests.specs.Front.{front_leaves};

use crate::bits::by_bits;
use crate::columns::{Columns, of_word};
use numbers::words::{u32_at, u64_at};

// A number that a word mostly is, and what so many bits make of it.
#[derive(Drop)]
struct Usual<const BITS: usize> {
    number: u64,
    image: u32,
    ghost known: { image ≡ crc_bits BITS number },
}

impl<const BITS: usize> Usual<BITS> {
    // What they make of x: bit by bit where it is another.
    fn of(&self, x: u64) -> u32
        requires { 32 ≤ BITS }
        ensures { result ≡ crc_bits BITS x }
    {
        if x == self.number {
            return self.image;
        }
        by_bits(x, BITS)
    }
}

// At 0x00: "SLC1" and version 1, under the ones that a CRC begins with.
const FORMAT: Usual<2048> = Usual {
    number: 0x1CEBCB3AC,
    image: 0x7D9746FF,
};

// At 0x08.
const HEADER_SIZE: Columns<1984, 2> = Columns {
    digits: [
        [0xB9E02B86, 0x762C21FD, 0xEC5843FA, 0xDD5CF105, 0xBF5594FB],
        [0x7B475F07, 0xF68EBE0E, 0xE8F10AED, 0xD40E632B, 0xADF0B0A7],
    ],
};

// At 0x0C.
const KEY_SIZE: Columns<1952, 2> = Columns {
    digits: [
        [0xCE937661, 0x98CA9A33, 0x34794297, 0x68F2852E, 0xD1E50A5C],
        [0xA6266249, 0x49A0B263, 0x934164C6, 0x236EBF7D, 0x46DD7EFA],
    ],
};

// At 0x10.
const INDEX_SIZE: Columns<1920, 2> = Columns {
    digits: [
        [0xFFD852C6, 0xFA5CD37D, 0xF155D00B, 0xE747D6E7, 0xCB63DB3F],
        [0x932BC08F, 0x23BBF7EF, 0x4777EFDE, 0x8EEFDFBC, 0x1833C989],
    ],
};

// At 0x14.
const SLOT_SIZE: Columns<1888, 2> = Columns {
    digits: [
        [0x048DC5CC, 0x091B8B98, 0x12371730, 0x246E2E60, 0x48DC5CC0],
        [0x91B8B980, 0x269D05F1, 0x4D3A0BE2, 0x9A7417C4, 0x31045979],
    ],
};

// At 0x18.
const HASH_ALG: Columns<1856, 2> = Columns {
    digits: [
        [0x299847D5, 0x53308FAA, 0xA6611F54, 0x492E4859, 0x925C90B2],
        [0x21555795, 0x42AAAF2A, 0x85555E54, 0x0F46CA59, 0x1E8D94B2],
    ],
};

// At 0x1C.
const FLAGS: Columns<1824, 2> = Columns {
    digits: [
        [0x0D62D3A3, 0x1AC5A746, 0x358B4E8C, 0x6B169D18, 0xD62D3A30],
        [0xA9B60291, 0x568073D3, 0xAD00E7A6, 0x5FEDB9BD, 0xBFDB737A],
    ],
};

// At 0x20.
const SLOT_CAPACITY: Columns<1792, 5> = Columns {
    digits: [
        [0x71D111A8, 0xE3A22350, 0xC2A83051, 0x80BC1653, 0x04945A57],
        [0x0928B4AE, 0x1251695C, 0x24A2D2B8, 0x4945A570, 0x928B4AE0],
        [0x20FAE331, 0x41F5C662, 0x83EB8CC4, 0x023B6F79, 0x0476DEF2],
        [0x08EDBDE4, 0x11DB7BC8, 0x23B6F790, 0x476DEF20, 0x8EDBDE40],
        [0x185BCA71, 0x30B794E2, 0x616F29C4, 0xC2DE5388, 0x8050D1E1],
    ],
};

// At 0x28.
const SLOT_HIGHWATER: Columns<1728, 5> = Columns {
    digits: [
        [0x83348832, 0x03856695, 0x070ACD2A, 0x0E159A54, 0x1C2B34A8],
        [0x38566950, 0x70ACD2A0, 0xE159A540, 0xC75F3C71, 0x8B520E13],
        [0x13486AD7, 0x2690D5AE, 0x4D21AB5C, 0x9A4356B8, 0x316ADB81],
        [0x62D5B702, 0xC5AB6E04, 0x8EBAAAF9, 0x18992303, 0x31324606],
        [0x62648C0C, 0xC4C91818, 0x8C7E46C1, 0x1D10FB73, 0x3A21F6E6],
    ],
};

// At 0x30.
const LIVE_COUNT: Columns<1664, 5> = Columns {
    digits: [
        [0x8462D800, 0x0D29C6F1, 0x1A538DE2, 0x34A71BC4, 0x694E3788],
        [0xD29C6F10, 0xA0D4A8D1, 0x44452753, 0x888A4EA6, 0x14F8EBBD],
        [0x29F1D77A, 0x53E3AEF4, 0xA7C75DE8, 0x4A62CD21, 0x94C59A42],
        [0x2C674275, 0x58CE84EA, 0xB19D09D4, 0x66D66559, 0xCDACCAB2],
        [0x9EB5E395, 0x3887B1DB, 0x710F63B6, 0xE21EC76C, 0xC1D1F829],
    ],
};

// At 0x38, the low part of user_version, where anything may stand.
const USER_VERSION_LOW: Columns<1600, 7> = Columns {
    digits: [
        [0x2162D385, 0x42C5A70A, 0x858B4E14, 0x0EFAEAD9, 0x1DF5D5B2],
        [0x3BEBAB64, 0x77D756C8, 0xEFAEAD90, 0xDAB12DD1, 0xB08E2D53],
        [0x64F02C57, 0xC9E058AE, 0x962CC7AD, 0x29B5F9AB, 0x536BF356],
        [0xA6D7E6AC, 0x4843BBA9, 0x90877752, 0x24E29855, 0x49C530AA],
        [0x938A6154, 0x22F8B459, 0x45F168B2, 0x8BE2D164, 0x1229D439],
        [0x2453A872, 0x48A750E4, 0x914EA1C8, 0x27713561, 0x4EE26AC2],
        [0x9DC4D584, 0x3E65DDF9, 0x7CCBBBF2, 0xF99777E4, 0xF6C29939],
    ],
};

// Its high part.
const USER_VERSION_HIGH: Columns<1565, 6> = Columns {
    digits: [
        [0xE8694483, 0xD53EFFF7, 0xAF91891F, 0x5ACF64CF, 0xB59EC99E],
        [0x6ED1E5CD, 0xDDA3CB9A, 0xBEABE1C5, 0x78BBB57B, 0xF1776AF6],
        [0xE702A31D, 0xCBE930CB, 0x923E1767, 0x2190583F, 0x4320B07E],
        [0x864160FC, 0x096EB709, 0x12DD6E12, 0x25BADC24, 0x4B75B848],
        [0x96EB7090, 0x283A97D1, 0x50752FA2, 0xA0EA5F44, 0x4438C879],
        [0x887190F2, 0x150F5715, 0x2A1EAE2A, 0x543D5C54, 0xA87AB8A8],
    ],
};

// At 0x48.
const BUCKET_COUNT: Columns<1472, 5> = Columns {
    digits: [
        [0xAB7AFF2A, 0x531988A5, 0xA633114A, 0x498A5465, 0x9314A8CA],
        [0x23C52765, 0x478A4ECA, 0x8F149D94, 0x1BC54DD9, 0x378A9BB2],
        [0x6F153764, 0xDE2A6EC8, 0xB9B8AB61, 0x769D2033, 0xED3A4066],
        [0xDF98F63D, 0xBADD9A8B, 0x705743E7, 0xE0AE87CE, 0xC4B1796D],
        [0x8C8E842B, 0x1CF17EA7, 0x39E2FD4E, 0x73C5FA9C, 0xE78BF538],
    ],
};

// At 0x50.
const BUCKET_USED: Columns<1408, 5> = Columns {
    digits: [
        [0xF1D0F55E, 0xE64D9C4D, 0xC9774E6B, 0x9702EA27, 0x2BE9A2BF],
        [0x57D3457E, 0xAFA68AFC, 0x5AA16309, 0xB542C612, 0x6F69FAD5],
        [0xDED3F5AA, 0xB84B9DA5, 0x757B4DBB, 0xEAF69B76, 0xD001401D],
        [0xA5EEF6CB, 0x4E319B67, 0x9C6336CE, 0x3D2A1B6D, 0x7A5436DA],
        [0xF4A86DB4, 0xECBCAD99, 0xDC952DC3, 0xBCC62D77, 0x7C602C1F],
    ],
};

// At 0x58.
const BUCKET_TOMBSTONES: Columns<1344, 5> = Columns {
    digits: [
        [0xDAECE73E, 0xB035B88D, 0x658707EB, 0xCB0E0FD6, 0x93F0695D],
        [0x220CA44B, 0x44194896, 0x8832912C, 0x158954A9, 0x2B12A952],
        [0x562552A4, 0xAC4AA548, 0x5D793C61, 0xBAF278C2, 0x70088775],
        [0xE0110EEA, 0xC5CE6B25, 0x8E70A0BB, 0x190D3787, 0x321A6F0E],
        [0x6434DE1C, 0xC869BC38, 0x953F0E81, 0x2F926BF3, 0x5F24D7E6],
    ],
};

// At 0x60: slots_offset is 256.
const SLOTS_OFFSET: Usual<1280> = Usual {
    number: 256,
    image: 0x421F6A8B,
};

// At 0x68.
const BUCKETS_OFFSET: Columns<1216, 7> = Columns {
    digits: [
        [0x878A92A7, 0x0AF953BF, 0x15F2A77E, 0x2BE54EFC, 0x57CA9DF8],
        [0xAF953BF0, 0x5AC60111, 0xB58C0222, 0x6EF472B5, 0xDDE8E56A],
        [0xBE3DBC25, 0x79970EBB, 0xF32E1D76, 0xE3B04C1D, 0xC28CEECB],
        [0x80F5AB67, 0x0407203F, 0x080E407E, 0x101C80FC, 0x203901F8],
        [0x407203F0, 0x80E407E0, 0x04247931, 0x0848F262, 0x1091E4C4],
        [0x2123C988, 0x42479310, 0x848F2620, 0x0CF23AB1, 0x19E47562],
        [0x33C8EAC4, 0x6791D588, 0xCF23AB10, 0x9BAB20D1, 0x32BA3753],
    ],
};

// At 0x74.
const STATE: Columns<1120, 1> = Columns {
    digits: [[0xCF519517, 0x9B4F5CDF, 0x3372CF4F, 0x66E59E9E, 0xCDCB3D3C]],
};

// What a word of two fields makes: bit by bit where one of them has more than two digits. One test for both is faster than one of each.
#[inline(always)]
fn two_fields<const BITS: usize, const HIGH: usize>(
    low: &Columns<BITS, 2>,
    high: &Columns<HIGH, 2>,
    x: u64,
) -> u32
    requires { BITS ≡ 32 + HIGH }
    ensures { result ≡ crc_bits BITS x }
{
    let first = x % 4294967296;
    let second = x / 4294967296;
    if 1024 <= first + second {
        return by_bits(x, BITS);
    }
    low.mix(first) ^ high.mix(second)
}

// What the words from 0x00 to 0x1F leave, with the ones that a CRC begins with.
fn opening(image: &[u8]) -> u32
    requires { 256 ≤ length image.now }
    ensures { result ≡ crc_bits 2048 (bit_xor 0xFFFFFFFF (word (part image.now 0x00 32))) }
{
    FORMAT.of(u64_at(image, 0x00) ^ 0xFFFFFFFF)
        ^ two_fields(&HEADER_SIZE, &KEY_SIZE, u64_at(image, 0x08))
        ^ two_fields(&INDEX_SIZE, &SLOT_SIZE, u64_at(image, 0x10))
        ^ two_fields(&HASH_ALG, &FLAGS, u64_at(image, 0x18))
}

// What the words from 0x20 to 0x3F leave.
fn counts(image: &[u8]) -> u32
    requires { 256 ≤ length image.now }
    ensures { result ≡ crc_bits 1792 (word (part image.now 0x20 32)) }
{
    SLOT_CAPACITY.of(u64_at(image, 0x20))
        ^ SLOT_HIGHWATER.of(u64_at(image, 0x28))
        ^ LIVE_COUNT.of(u64_at(image, 0x30))
        ^ of_word(&USER_VERSION_LOW, &USER_VERSION_HIGH, u64_at(image, 0x38))
}

// What the words from 0x48 to 0x6F leave.
fn buckets(image: &[u8]) -> u32
    requires { 256 ≤ length image.now }
    ensures { result ≡ crc_bits 1472 (word (part image.now 0x48 40)) }
{
    BUCKET_COUNT.of(u64_at(image, 0x48))
        ^ BUCKET_USED.of(u64_at(image, 0x50))
        ^ BUCKET_TOMBSTONES.of(u64_at(image, 0x58))
        ^ SLOTS_OFFSET.of(u64_at(image, 0x60))
        ^ BUCKETS_OFFSET.of(u64_at(image, 0x68))
}

// What the front leaves at the header's end, its generation (0x40 to 0x47) and its CRC (0x70 to 0x73) taken as zero.
pub fn front(image: &[u8]) -> u32
    requires { 256 ≤ length image.now }
    ensures { result ≡ front_leaves image.now }
{
    opening(image) ^ counts(image) ^ buckets(image) ^ STATE.of(u64::from(u32_at(image, 0x74)))
}
