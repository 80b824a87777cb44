// Slices, and parts of slices, compared, copied and cleared.
ghost use Rattle.std.specs.Prelude.{◌≡◌, ◌+◌, ◌*◌, ◌/◌, ◌≤◌, ◌==◌, min, length, take, replicate};
ghost use Rattle.std.specs.Int.{w64, from_le_bytes};
ghost use Rattle.std.specs.List.{list_all};
ghost use Rattle.numbers.specs.Bytes.{same, below, all_zero, put};
ghost use Rattle.numbers.specs.EqualWords.{EqualWords};

use crate::words::u64_at;

// How many words of eight bytes are the same in both slices, from the start on.
fn equal_words(a: &[u8], b: &[u8]) -> usize
    ensures { EqualWords a.now b.now result }
{
    let words = a.len().min(b.len()) / 8;
    for n in 0..words {
        if u64_at(a, 8 * n) != u64_at(b, 8 * n) {
            return n;
        }
    }
    words
}

// Whether two slices hold the same bytes. By hand, since `==` of slices goes byte by byte.
pub fn same_bytes(a: &[u8], b: &[u8]) -> bool
    ensures { result ≡ same a.now b.now }
{
    if a.len() != b.len() {
        return false;
    }
    let words = a.len() / 8;
    if equal_words(a, b) < words {
        return false;
    }
    a[8 * words..] == b[8 * words..]
}

// Whether a comes before b, lexicographically, bytes as unsigned numbers. Words only tell that something differs: as a number, a
// word has its first byte lowest. The rest is compared by hand, since `<` of slices takes up to twice the time.
pub fn comes_before(a: &[u8], b: &[u8]) -> bool
    ensures { result ≡ below a.now b.now }
{
    let start = 8 * equal_words(a, b);
    for i in start..b.len() {
        if a.len() <= i {
            return true;
        }
        if a[i] < b[i] {
            return true;
        }
        if b[i] < a[i] {
            return false;
        }
    }
    false
}

// Whether a word of eight bytes is zero: one test of a number, where `==` of arrays makes eight.
fn zero_word(word: &[u8; 8]) -> bool
    ensures { result ≡ (from_le_bytes w64 word.now == 0) }
{
    u64::from_le_bytes(*word) == 0
}

// Whether every word of eight bytes is zero.
fn zero_words(words: &[[u8; 8]]) -> bool
    ensures { result ≡ list_all (λ w. from_le_bytes w64 w == 0) words.now }
{
    words.iter().all(|word| zero_word(word))
}

// Whether every byte is zero, one at a time.
fn zero_bytes(s: &[u8]) -> bool
    ensures { result ≡ list_all (λ x. x == 0) s.now }
{
    s.iter().all(|byte| *byte == 0)
}

// Whether every byte is zero.
pub fn all_zero(s: &[u8]) -> bool
    ensures { result ≡ all_zero s.now }
{
    let (words, tail) = s.as_chunks::<8>();
    zero_words(words) && zero_bytes(tail)
}

// Copies the items of src to an offset of dst.
pub fn copy_to<T: Copy>(dst: &mut [T], at: usize, src: &[T])
    requires { at + length src.now ≤ length dst.old }
    ensures { dst.new ≡ put dst.old at src.now }
{
    for i in 0..src.len() {
        dst[at + i] = src[i];
    }
}

// Puts n zero bytes at an offset.
pub fn clear(dst: &mut [u8], at: usize, n: usize)
    requires { at + n ≤ length dst.old }
    ensures { dst.new ≡ put dst.old at (replicate n 0) }
{
    dst[at..at + n].fill(0);
}
