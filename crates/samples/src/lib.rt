// Samples and their differences (01, Leads and samples), on numbers that need no sign: a sample with 32,768 added, a stored value with
// 131,072. Nothing can wrap.
#![tactic(auto, using(crate::proofs::Laws::signs), unfolding(bits::specs::InnerRaised::from_zero, crate::specs::Differences::sample_of, crate::specs::Differences::stored_of))]

ghost use Rattle.std.specs.Prelude.{◌≡◌, true, false, ◌-◌, min, ◌<◌, ◌≤◌, pos, length, get_or};
ghost use Rattle.bits.specs.InnerRaised.{sample_zero, value_zero, from_zero};
ghost use Rattle.samples.specs.Differences.{stored_of, sample_of, differences};

// A sample of which x is 32,768 more.
pub fn lowered(x: usize) -> i16
    requires { x < 65536 }
    ensures { result ≡ from_zero sample_zero x }
{
    (x as i32 - 32768) as i16
}

// A sample, 32,768 added.
pub fn raised(x: i16) -> usize
    ensures { (from_zero sample_zero result ≡ x) × (result < 65536) }
{
    (i32::from(x) + 32768) as usize
}

// Whether the value at a place is the sample itself: order 1 takes no difference at the first sample, order 2 none at the first two.
fn plain(order: usize, place: usize) -> bool
    ensures { (result ≡ true → 1 ≤ order → place < min order 2) × (result ≡ false → (1 ≤ order) × (min order 2 ≤ place)) }
{
    match order {
        0 => true,
        1 => place < 1,
        _ => place < 2,
    }
}

// The sample that a stored value decodes to, 229,376 added. The order is the number of the record's byte, as in `sample_of` of the
// definitions, which says what every number means.
pub fn sample_of(order: usize, place: usize, v: usize, last: usize, other: usize) -> usize
    requires { (v < 262144) × (last < 65536) × (other < 65536) }
    ensures { (from_zero 229376 result ≡ sample_of order place (from_zero value_zero v) (from_zero sample_zero last) (from_zero sample_zero other)) × (result < 458752) }
{
    if plain(order, place) {
        v + 98304
    } else if order == 1 {
        v + last + 65536
    } else {
        v + 2 * last + 65536 - other
    }
}

// The value stored for a sample x, 131,072 added.
fn stored_of(order: usize, place: usize, x: usize, last: usize, other: usize) -> usize
    requires { (x < 65536) × (last < 65536) × (other < 65536) }
    ensures { (from_zero value_zero result ≡ stored_of order place (from_zero sample_zero x) (from_zero sample_zero last) (from_zero sample_zero other)) × (result < 262144) }
{
    if plain(order, place) {
        x + 98304
    } else if order == 1 {
        x + bits::VALUE_ZERO - last
    } else {
        x + other + bits::VALUE_ZERO - 2 * last
    }
}

// The sample `back` places before the i-th, raised; where there is none, any.
fn earlier(xs: &[i16], i: usize, back: usize) -> usize
    requires { i < length xs.now }
    ensures { (result < 65536) × (back ≤ i → from_zero sample_zero result ≡ get_or xs.now (i - back) (pos 0)) }
{
    if i < back { 0 } else { raised(xs[i - back]) }
}

// The value stored at place i, 131,072 added.
pub fn value_at(xs: &[i16], order: usize, i: usize) -> usize
    requires { i < length xs.now }
    ensures { (from_zero value_zero result ≡ get_or (differences order xs.now) i (pos 0)) × (result < 262144) }
{
    let x = raised(xs[i]);
    let last = earlier(xs, i, 1);
    let other = earlier(xs, i, 2);
    stored_of(order, i, x, last, other)
}
