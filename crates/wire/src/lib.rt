// Numbers in bytes and the check over bytes (01, The record): what every other chapter reads and writes with.
// Every public read answers for any place: a byte past the end counts as 0, and a part is what is there of it.
#![tactic(auto)]

ghost use Rattle.std.specs.Prelude.{◌≡◌, true, ◌++◌, ℕ, ◌+◌, ◌^◌, ◌≤◌, ◌<◌, length, take, drop};
ghost use Rattle.wire.specs.Numbers.{byte_at, number_at, bytes_of, part};
ghost use Rattle.wire.specs.Check.{crc_byte, crc_from, crc_of};
ghost use Rattle.wire.specs.InnerCheck.{fed, fed_all, words_in, quotient as quotient_of};
ghost use Rattle.wire.specs.RuleWords.{are_bytes, ends_by};

// The most bytes that a record may have, and the most samples that a lead or a beat may have (01, Numbers that bound the work).
pub const MOST_BYTES: usize = 1048576;

pub const MOST_SAMPLES: usize = 65536;

// Bytes that are lent are bytes. Each is looked at, since the checker says of an element what its type says where it is read; the compiler
// leaves no code of it.
pub fn bytes_fit(s: &[u8])
    ensures { are_bytes s.now ≡ true }
{
    for byte in s {
        let _byte = *byte;
    }
}

// The byte at a place, as a number.
pub fn byte(s: &[u8], i: usize) -> usize
    ensures { (result ≡ byte_at s.now i) × (result < 256) }
{
    s.get(i).copied().map_or(0, usize::from)
}

// The number in two bytes. In four it is two of these; with the size as a const parameter callers would read `number::<2>(s, i)`, no plainer.
pub fn number16(s: &[u8], i: usize) -> usize
    ensures { (result ≡ number_at 2 s.now i) × (result < 65536) }
{
    if s.len() <= i {
        return 0;
    }
    byte(s, i) + byte(s, i + 1) * 256
}

// The number in four bytes.
pub fn number32(s: &[u8], i: usize) -> usize
    ensures { (result ≡ number_at 4 s.now i) × (result < 4294967296) }
{
    if s.len() <= i {
        return 0;
    }
    number16(s, i) + number16(s, i + 2) * 65536
}

// The bytes from `start` up to `end`, as far as they are there: that part of `s` itself.
pub fn part_of<'a>(s: &'a [u8], start: usize, end: usize) -> &'a [u8]
    ensures { result.now ≡ part s.now start end }
{
    s.get(start..end.min(s.len())).unwrap_or(&s[..0])
}

// Elements are copied one by one into as much room. `copy_from_slice` would call `memcpy` or `memmove`: then the archive for C would need a
// C library, and it needs none but for `memset`.
pub fn copy<T: Copy>(from: &[T], to: &mut [T])
    requires { length from.now ≡ length to.old }
    ensures { to.new ≡ from.now }
{
    for i in 0..from.len() {
        to[i] = from[i];
    }
}

// Bytes end at a place, with at most `spare` bytes behind.
#[tactic(auto, unfolding(crate::specs::RuleWords::ends_by))]
pub fn ends_by(s: &[u8], end: usize, spare: usize) -> bool
    requires { (end < 8388608) × (spare ≤ 1) }
    ensures { result ≡ ends_by spare s.now end }
{
    end <= s.len() && s.len() <= end + spare
}

// A number of two bytes is put at a place; one of four as two of these.
pub fn put16(out: &mut [u8], at: usize, n: usize)
    requires { at + 2 ≤ length out.old }
    ensures { out.new ≡ take at out.old ++ (bytes_of 2 n ++ drop (at + 2) out.old) }
{
    out[at] = (n % 256) as u8;
    out[at + 1] = (n / 256 % 256) as u8;
}

// A number of four bytes is put at a place.
pub fn put32(out: &mut [u8], at: usize, n: usize)
    requires { at + 4 ≤ length out.old }
    ensures { out.new ≡ take at out.old ++ (bytes_of 4 n ++ drop (at + 4) out.old) }
{
    put16(out, at, n % 65536);
    put16(out, at + 2, n / 65536);
}

// The check is a remainder by the polynomial of 1021 hex, x^16 + x^12 + x^5 + 1. Its squares have no more terms: the 4th power is
// x^64 + x^48 + x^20 + 1, the 64th x^1024 + x^768 + x^320 + 1. So one word of eight bytes, or sixteen words, can be taken at once by shifts and
// sums, with no table.

// The register after one byte, its eight bits at once.
fn crc_byte(c: u16, b: u8) -> u16
    ensures { result ≡ crc_byte c b }
{
    let x = c ^ b as u16 * 256;
    let y = (x >> 8) ^ (x >> 12);
    (x << 8) ^ (y << 12) ^ (y << 5) ^ y
}

// The register after bytes.
fn by_bytes(c: u16, s: &[u8]) -> u16
    ensures { result ≡ crc_from c s.now }
{
    let mut x = c;
    for b in s {
        x = crc_byte(x, *b);
    }
    x
}

// The eight bytes from `i` on, the first highest.
fn word(s: &[u8], i: usize) -> u64
    requires { i + 8 ≤ length s.now }
    ensures { (c : ℕ) → crc_from c (drop i s.now) ≡ crc_from (fed 8 c result) (drop (i + 8) s.now) }
{
    bits::word(s, i)
}

// The quotient of a word followed by eight bytes 0, by the polynomial's 4th power.
fn quotient(w: u64) -> u64
    ensures { result ≡ quotient_of w }
{
    let t = w ^ (w >> 16);
    t ^ (t >> 32) ^ (w >> 44)
}

// The register after the bytes of a word, from 0. The quotient by the 4th power, times the 2nd and the 1st, is that by the polynomial
// itself; of each product only the whole part is kept.
fn register(w: u64) -> u16
    ensures { result ≡ fed 8 0 w }
{
    let p = quotient(w);
    let q = p ^ (p >> 8) ^ (p >> 22) ^ (p >> 32);
    let r = q ^ (q >> 4) ^ (q >> 11) ^ (q >> 16);
    ((r ^ (r << 5) ^ (r << 12)) % 65536) as u16
}

// One word that leaves the register, from 0, as `w` and then `v` do.
fn next(w: u64, v: u64) -> u64
    ensures { fed 8 0 result ≡ fed 8 (fed 8 0 w) v }
{
    let q = quotient(w);
    q ^ (q << 20) ^ (q << 48) ^ v
}

// The register after `w` and the bytes of `s`: eight bytes a turn, and the last one by one.
fn by_words(w: u64, s: &[u8]) -> u16
    ensures { result ≡ crc_from (fed 8 0 w) s.now }
{
    let mut v = w;
    let mut rest = s;
    while let Some((bytes, more)) = rest.split_first_chunk::<WORD>() {
        v = next(v, word(bytes, 0));
        rest = more;
    }
    by_bytes(register(v), rest)
}

// The bytes of a word, and those of a turn: sixteen words.
const WORD: usize = 8;

const TURN: usize = 128;

// Sixteen words, the first first. They are fields and not an array: a loop that puts the array a call answers into a variable again is not
// covered by the check.
#[derive(Clone, Copy)]
struct Words {
    w0: u64,
    w1: u64,
    w2: u64,
    w3: u64,
    w4: u64,
    w5: u64,
    w6: u64,
    w7: u64,
    w8: u64,
    w9: u64,
    w10: u64,
    w11: u64,
    w12: u64,
    w13: u64,
    w14: u64,
    w15: u64,
}

// The word `w` comes behind the sixteen. By the 64th power the first of them may go, if it is added to those 4, 11 and 16 behind it.
fn step(x: Words, w: u64) -> Words
    ensures { fed_all 0 (words_in result) ≡ fed 8 (fed_all 0 (words_in x)) w }
{
    Words {
        w0: x.w1,
        w1: x.w2,
        w2: x.w3,
        w3: x.w4 ^ x.w0,
        w4: x.w5,
        w5: x.w6,
        w6: x.w7,
        w7: x.w8,
        w8: x.w9,
        w9: x.w10,
        w10: x.w11 ^ x.w0,
        w11: x.w12,
        w12: x.w13,
        w13: x.w14,
        w14: x.w15,
        w15: w ^ x.w0,
    }
}

// The words of a turn's bytes.
fn words_of(s: &[u8; TURN]) -> Words
    ensures { (c : ℕ) → crc_from c s.now ≡ fed_all c (words_in result) }
{
    Words {
        w0: word(s, 0),
        w1: word(s, 8),
        w2: word(s, 16),
        w3: word(s, 24),
        w4: word(s, 32),
        w5: word(s, 40),
        w6: word(s, 48),
        w7: word(s, 56),
        w8: word(s, 64),
        w9: word(s, 72),
        w10: word(s, 80),
        w11: word(s, 88),
        w12: word(s, 96),
        w13: word(s, 104),
        w14: word(s, 112),
        w15: word(s, 120),
    }
}

// Sixteen words that leave the register as `x` and then `y` do. The steps are written out: so the compiler moves no word.
fn turn(x: Words, y: Words) -> Words
    ensures { fed_all 0 (words_in result) ≡ fed_all (fed_all 0 (words_in x)) (words_in y) }
{
    let x = step(x, y.w0);
    let x = step(x, y.w1);
    let x = step(x, y.w2);
    let x = step(x, y.w3);
    let x = step(x, y.w4);
    let x = step(x, y.w5);
    let x = step(x, y.w6);
    let x = step(x, y.w7);
    let x = step(x, y.w8);
    let x = step(x, y.w9);
    let x = step(x, y.w10);
    let x = step(x, y.w11);
    let x = step(x, y.w12);
    let x = step(x, y.w13);
    let x = step(x, y.w14);
    step(x, y.w15)
}

// One word that leaves the register, from 0, as the sixteen do.
fn joined(x: Words) -> u64
    ensures { fed 8 0 result ≡ fed_all 0 (words_in x) }
{
    let w = next(x.w0, x.w1);
    let w = next(w, x.w2);
    let w = next(w, x.w3);
    let w = next(w, x.w4);
    let w = next(w, x.w5);
    let w = next(w, x.w6);
    let w = next(w, x.w7);
    let w = next(w, x.w8);
    let w = next(w, x.w9);
    let w = next(w, x.w10);
    let w = next(w, x.w11);
    let w = next(w, x.w12);
    let w = next(w, x.w13);
    let w = next(w, x.w14);
    next(w, x.w15)
}

// The word after which the register, from 0, holds FFFF.
const PRESET: u64 = 33999;

// The check of all bytes of `s`. Sixteen words stand for the bytes of all turns so far: from 0, they leave the register as those do from FFFF.
pub fn crc(s: &[u8]) -> u16
    ensures { result ≡ crc_of s.now }
{
    if s.len() < TURN {
        return by_words(PRESET, s);
    }
    let mut x = Words {
        w0: 0,
        w1: 0,
        w2: 0,
        w3: 0,
        w4: 0,
        w5: 0,
        w6: 0,
        w7: 0,
        w8: 0,
        w9: 0,
        w10: 0,
        w11: 0,
        w12: 0,
        w13: 0,
        w14: 0,
        w15: PRESET,
    };
    let mut rest = s;
    while let Some((bytes, more)) = rest.split_first_chunk::<TURN>() {
        x = turn(x, words_of(bytes));
        rest = more;
    }
    by_words(joined(x), rest)
}
