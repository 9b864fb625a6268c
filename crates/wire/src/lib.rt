// Bytes and numbers read from a slice, appended to a vector, and put into a buffer that the caller lends. Numbers have the
// most significant byte first (N3). A byte past the end reads as 0.
#![tactic(auto)]

ghost use Rattle.std.specs.Prelude.{◌≡◌, ◌∷◌, [], ◌++◌, ◌<◌, ◌≤◌, ◌+◌, ◌%◌, leb, length, get_or};
ghost use Rattle.arrayvec.specs.ArrayVec.{array_vec_len};
ghost use Rattle.wire.specs.Bytes.{word16, word32, word64};
ghost use Rattle.wire.specs.Writing.{Wrote, starting_with, writer_buffer, half_bytes, word_bytes};

use arrayvec::ArrayVec;

pub fn byte_at(s: &[u8], i: usize) -> u8
    ensures value { result ≡ get_or s.now i 0 }
    ensures unchanged { s.exit.now ≡ s.entry.now }
{
    s.get(i).copied().unwrap_or(0)
}

// Two bytes from i on. Each width has a function of its own, here and below: `from_be_bytes` is no trait's.
pub fn word16_at(s: &[u8], i: usize) -> u16
    ensures value { result ≡ word16 s.now i }
    ensures unchanged { s.exit.now ≡ s.entry.now }
{
    if s.len() <= i {
        return 0;
    }
    u16::from_be_bytes([byte_at(s, i), byte_at(s, i + 1)])
}

// Four bytes from i on.
pub fn word32_at(s: &[u8], i: usize) -> u32
    ensures value { result ≡ word32 s.now i }
    ensures unchanged { s.exit.now ≡ s.entry.now }
    ensures low { result % 65536 ≡ word16 s.now (i + 2) }
{
    if s.len() <= i {
        return 0;
    }
    u32::from_be_bytes([
        byte_at(s, i),
        byte_at(s, i + 1),
        byte_at(s, i + 2),
        byte_at(s, i + 3),
    ])
}

// Four bytes that are all there, so that nothing is tested for each.
pub fn word32_in(s: &[u8], i: usize) -> u32
    requires { i + 4 ≤ length s.now }
    ensures value { result ≡ word32 s.now i }
    ensures low { result % 65536 ≡ word16 s.now (i + 2) }
{
    u32::from_be_bytes([s[i], s[i + 1], s[i + 2], s[i + 3]])
}

// Eight bytes from i on.
pub fn word64_at(s: &[u8], i: usize) -> u64
    ensures value { result ≡ word64 s.now i }
    ensures unchanged { s.exit.now ≡ s.entry.now }
{
    if s.len() <= i {
        return 0;
    }
    let high = u64::from(word32_at(s, i));
    let low = u64::from(word32_at(s, i + 4));
    (high << 32) | low
}

// Bytes as they stand, at a place of a buffer that is lent: the rest of it stays, so it is no vector.
pub fn put_bytes(out: &mut [u8], at: usize, text: &[u8]) -> usize
    requires { at + length text.now ≤ length out.old }
    ensures { Wrote out.old at text.now out.new result }
{
    let next = at + text.len();
    out[at..next].copy_from_slice(text);
    next
}

// A writer's buffer: takes the whole text, if there is room for it. Answers whether there is.
pub fn put_whole(out: &mut [u8], text: &[u8]) -> bool
    ensures room { result ≡ leb (length text.now) (length out.old) }
    ensures buffer { out.new ≡ writer_buffer text.now out.old }
    ensures unchanged { text.exit.now ≡ text.entry.now }
{
    if out.len() < text.len() {
        return false;
    }
    put_bytes(out, 0, text);
    true
}

// Appends bytes as they stand.
pub fn append<const CAP: usize>(out: &mut ArrayVec<u8, CAP>, text: &[u8])
    requires { array_vec_len out.old + length text.now ≤ CAP }
    ensures items { out.new.items ≡ out.old.items ++ text.now }
    ensures len { array_vec_len out.new ≡ array_vec_len out.old + length text.now }
{
    out.try_extend_from_slice(text).unwrap();
}

// Appends a number in two bytes.
pub fn append_word16<const CAP: usize>(out: &mut ArrayVec<u8, CAP>, x: u16)
    requires { array_vec_len out.old + 2 ≤ CAP }
    ensures items { out.new.items ≡ out.old.items ++ half_bytes x }
    ensures len { array_vec_len out.new ≡ array_vec_len out.old + 2 }
{
    append(out, &u16::to_be_bytes(x));
}

// Appends a number in four bytes.
pub fn append_word32<const CAP: usize>(out: &mut ArrayVec<u8, CAP>, x: u32)
    requires { array_vec_len out.old + 4 ≤ CAP }
    ensures items { out.new.items ≡ out.old.items ++ word_bytes x }
    ensures len { array_vec_len out.new ≡ array_vec_len out.old + 4 }
{
    append(out, &u32::to_be_bytes(x));
}

// Puts numbers at the start of a buffer; the places after them stay.
pub fn put_numbers<const N: usize>(out: &mut [u64], numbers: [u64; N])
    requires { N ≤ length out.old }
    ensures { out.new ≡ starting_with numbers.entry out.old }
{
    out[..N].copy_from_slice(&numbers);
}
