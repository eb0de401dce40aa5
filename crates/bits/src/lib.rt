// Bits of bytes, the most significant first, through a window: the next bits of a stream, at least 57 where there are that many, as
// the top of a 64-bit number (01, Code tables).
#![tactic(auto)]

ghost use Rattle.std.specs.Prelude.{◌≡◌, ◌++◌, ◌+◌, ◌-◌, ◌*◌, ◌/◌, ◌%◌, ◌^◌, ◌<◌, ◌≤◌, length, take, drop, replicate};
ghost use Rattle.bits.specs.Bits.{bits_in, number_of};
ghost use Rattle.bits.specs.InnerWindow.{Window, turned};

// The eight bytes from i on, the first highest. The compiler makes one load and one swap of bytes of this sum, since it adds the last
// byte first.
pub fn word(s: &[u8], i: usize) -> u64
    requires { i + 8 ≤ length s.now }
    ensures { result ≡ number_of (take 64 (drop (i * 8) (bits_in s.now))) }
{
    u64::from(s[i + 7])
        + u64::from(s[i + 6]) * 256
        + u64::from(s[i + 5]) * 65536
        + u64::from(s[i + 4]) * 16777216
        + u64::from(s[i + 3]) * 4294967296
        + u64::from(s[i + 2]) * 1099511627776
        + u64::from(s[i + 1]) * 281474976710656
        + u64::from(s[i]) * 72057594037927936
}

// The same near the end of the bytes, with zeros in place of those that are not there. The loop is over those that are there, so that
// the compiler cannot write it out, and finds the window small enough to put into its callers.
fn last_word(s: &[u8], i: usize) -> u64
    requires { (i ≤ length s.now) × (length s.now < i + 8) }
    ensures { result ≡ number_of (take 64 (drop (i * 8) (bits_in (s.now ++ replicate 8 0)))) }
{
    let rest = &s[i..];
    if rest.is_empty() {
        return 0;
    }
    let mut w: u64 = 0;
    for byte in rest {
        w = w * 256 + u64::from(*byte);
    }
    w << ((8 - rest.len()) * 8)
}

// The window on the stream from bit `at` on.
pub fn window(s: &[u8], at: usize) -> u64
    requires { (length s.now ≤ 1048576) × (at ≤ length s.now * 8) }
    ensures { Window (drop at (bits_in s.now)) result }
{
    let i = at / 8;
    if s.len() < i + 8 {
        return last_word(s, i) << (at % 8);
    }
    word(s, i) << (at % 8)
}

// The first p bits of a window, as a number.
pub fn top(w: u64, p: usize) -> u64
    requires { (1 ≤ p) × (p ≤ 57) }
    ensures { result ≡ w / 2 ^ (64 - p) }
{
    w >> (64 - p)
}

// The q bits of a window after its first p, as a number.
pub fn after(w: u64, p: usize, q: usize) -> u64
    requires { (1 ≤ q) × (p + q ≤ 57) }
    ensures { result ≡ w * 2 ^ p % 2 ^ 64 / 2 ^ (64 - q) }
{
    (w << p) >> (64 - q)
}

// A base code of p bits, whose first bit is the lowest, turned so that its first bit is the highest. (`reverse_bits` would turn all 64
// bits of the word, and be longer for the few that a prefix has.)
pub fn turn(p: usize, code: usize) -> usize
    requires { p ≤ 32 }
    ensures { (result ≡ turned p code) × (result < 2 ^ p) }
{
    let mut turned = 0;
    let mut rest = code;
    for _ in 0..p {
        turned = turned * 2 + rest % 2;
        rest /= 2;
    }
    turned
}

// Whole numbers are held without a sign: a sample with this much added, a stored value with that much.
pub const SAMPLE_ZERO: usize = 32768;

pub const VALUE_ZERO: usize = 131072;

// Two to the p.
pub fn power(p: usize) -> usize
    requires { p ≤ 32 }
    ensures { result ≡ 2 ^ p }
{
    1usize << p
}
