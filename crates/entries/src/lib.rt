// Sections 3, 4, 5 and 6 judged one by one (01, Leads and samples; refusal 8): leads, streams and the beat's zones. A slice `s` is a
// section with its header. Every byte string is answered. (`wire` reads numbers as usize, for sums; a narrower type here loses no bit, as
// the check proves of each `as`.)
#![tactic(auto)]

ghost use Rattle.std.specs.Prelude.{◌≡◌, ◌+◌, ◌*◌, ◌<◌, ◌≤◌, length};
ghost use Rattle.wire.specs.RuleWords.{all_in};
ghost use Rattle.entries.specs.Section3.{lead_count, flags_of, lead_id, first_sample, last_sample, sample_count, lead_right, section3_right};
ghost use Rattle.entries.specs.Sections5And6.{step_of, interval_of, order_of, bimodal_of, byte_count_of, bytes_before, stream_start, stream_of, streams_right, section6_right};
ghost use Rattle.entries.specs.Section4.{beat_length, fiducial_of, qrs_count, qrs_type, zone_begin, qrs_fiducial, zone_end, samples_in_beat, last_before, zone_right, section4_right};

// How many leads Section 3 says.
pub fn lead_count(s: &[u8]) -> u8
    ensures { result ≡ lead_count s.now }
{
    wire::byte(s, 16) as u8
}

// The flags, bit 0 for a beat that was subtracted.
pub fn flags_of(s: &[u8]) -> u8
    ensures { result ≡ flags_of s.now }
{
    wire::byte(s, 17) as u8
}

// The first sample's number of lead k.
pub fn first_sample(s: &[u8], k: u8) -> u32
    ensures { result ≡ first_sample s.now k }
{
    wire::number32(s, 18 + 9 * usize::from(k)) as u32
}

// The last sample's number of lead k.
pub fn last_sample(s: &[u8], k: u8) -> u32
    ensures { result ≡ last_sample s.now k }
{
    wire::number32(s, 22 + 9 * usize::from(k)) as u32
}

// The ID of lead k.
pub fn lead_id(s: &[u8], k: u8) -> u8
    ensures { result ≡ lead_id s.now k }
{
    wire::byte(s, 26 + 9 * usize::from(k)) as u8
}

// How many samples lead k has.
pub fn sample_count(s: &[u8], k: u8) -> usize
    ensures { (result ≡ sample_count s.now k) × (result ≤ 4294967296) }
{
    (last_sample(s, k) as usize + 1).saturating_sub(first_sample(s, k) as usize)
}

// The first and last sample of lead k.
#[tactic(auto, unfolding(crate::specs::Section3::lead_right))]
fn lead_right(s: &[u8], k: u8) -> bool
    ensures { result ≡ lead_right s.now k }
{
    let first = first_sample(s, k);
    1 <= first && first <= last_sample(s, k) && sample_count(s, k) <= wire::MOST_SAMPLES
}

// Those of n leads.
fn all_leads_right(s: &[u8], n: u8) -> bool
    ensures { result ≡ all_in 0 n (lead_right s.now) }
{
    (0..n).all(|k| lead_right(s, k))
}

// Section 3 keeps its rule.
#[tactic(auto, unfolding(crate::specs::Section3::section3_right))]
pub fn section3_right(s: &[u8]) -> bool
    ensures { result ≡ section3_right s.now }
{
    let n = lead_count(s);
    1 <= n && n <= 32 && all_leads_right(s, n) && wire::ends_by(s, 18 + 9 * usize::from(n), 1)
}

// Sections 5 and 6: the step in nanovolts.
pub fn step_of(s: &[u8]) -> u16
    ensures { result ≡ step_of s.now }
{
    wire::number16(s, 16) as u16
}

// The interval in microseconds.
pub fn interval_of(s: &[u8]) -> u16
    ensures { result ≡ interval_of s.now }
{
    wire::number16(s, 18) as u16
}

// The difference order.
pub fn order_of(s: &[u8]) -> u8
    ensures { result ≡ order_of s.now }
{
    wire::byte(s, 20) as u8
}

// Section 6's byte for bimodal compression.
pub fn bimodal_of(s: &[u8]) -> u8
    ensures { result ≡ bimodal_of s.now }
{
    wire::byte(s, 21) as u8
}

// How many bytes the stream of lead k has.
pub fn stream_bytes(s: &[u8], k: u8) -> u16
    ensures { result ≡ byte_count_of s.now k }
{
    wire::number16(s, 22 + 2 * usize::from(k)) as u16
}

// How many bytes the streams before that of lead k have together.
fn bytes_before(s: &[u8], k: u8) -> usize
    ensures { (result ≡ bytes_before s.now k) × (result ≤ 65535 * k) }
{
    (0..k).map(|j| usize::from(stream_bytes(s, j))).sum()
}

// Where the stream of lead k starts, of n leads.
#[tactic(auto, unfolding(crate::specs::Sections5And6::stream_start))]
pub fn stream_start(s: &[u8], n: u8, k: u8) -> usize
    ensures { (result ≡ stream_start n s.now k) × (result ≤ 22 + 2 * n + 65535 * k) }
{
    22 + 2 * usize::from(n) + bytes_before(s, k)
}

// The stream of lead k: that part of the section itself.
#[tactic(auto, unfolding(crate::specs::Sections5And6::stream_of))]
pub fn stream_of<'a>(s: &'a [u8], n: u8, k: u8) -> &'a [u8]
    ensures { (result.now ≡ stream_of n s.now k) × (length result.now < 65536) }
{
    let start = stream_start(s, n, k);
    let end = start + usize::from(stream_bytes(s, k));
    wire::part_of(s, start, end)
}

// Section 5 keeps its rule, for n leads; Section 6 keeps it too.
#[tactic(auto, unfolding(crate::specs::Sections5And6::streams_right))]
pub fn streams_right(s: &[u8], n: u8) -> bool
    requires { n ≤ 32 }
    ensures { result ≡ streams_right n s.now }
{
    step_of(s) != 0
        && interval_of(s) != 0
        && order_of(s) <= 2
        && wire::ends_by(s, stream_start(s, n, n), 1)
}

// Section 6 keeps its rule, for n leads.
#[tactic(auto, unfolding(crate::specs::Sections5And6::section6_right))]
pub fn section6_right(s: &[u8], n: u8) -> bool
    requires { n ≤ 32 }
    ensures { result ≡ section6_right n s.now }
{
    bimodal_of(s) <= 1 && streams_right(s, n)
}

// Section 4: the beat's length in ms.
pub fn beat_length(s: &[u8]) -> u16
    ensures { result ≡ beat_length s.now }
{
    wire::number16(s, 16) as u16
}

// The fiducial F.
pub fn fiducial_of(s: &[u8]) -> u16
    ensures { result ≡ fiducial_of s.now }
{
    wire::number16(s, 18) as u16
}

// How many QRS complexes there are.
pub fn qrs_count(s: &[u8]) -> u16
    ensures { result ≡ qrs_count s.now }
{
    wire::number16(s, 20) as u16
}

// The type of zone k.
pub fn zone_type(s: &[u8], k: u16) -> u16
    ensures { result ≡ qrs_type s.now k }
{
    wire::number16(s, 22 + 14 * usize::from(k)) as u16
}

// Its first sample.
pub fn zone_begin(s: &[u8], k: u16) -> u32
    ensures { result ≡ zone_begin s.now k }
{
    wire::number32(s, 24 + 14 * usize::from(k)) as u32
}

// Its fiducial.
pub fn zone_fiducial(s: &[u8], k: u16) -> u32
    ensures { result ≡ qrs_fiducial s.now k }
{
    wire::number32(s, 28 + 14 * usize::from(k)) as u32
}

// Its last sample.
pub fn zone_end(s: &[u8], k: u16) -> u32
    ensures { result ≡ zone_end s.now k }
{
    wire::number32(s, 32 + 14 * usize::from(k)) as u32
}

// How many samples a beat of `ms` milliseconds has.
#[tactic(auto, unfolding(crate::specs::Section4::samples_in_beat))]
pub fn samples_in_beat(ms: u16, interval: usize) -> usize
    requires { 0 < interval }
    ensures { (result ≡ samples_in_beat ms interval) × (result ≤ 65535000) }
{
    1000 * usize::from(ms) / interval
}

// Zone k keeps its rule, behind the last sample of the zones before it.
#[tactic(auto, unfolding(crate::specs::Section4::zone_right))]
fn zone_right(s: &[u8], k: u16, samples: usize, last: u32) -> bool
    requires { (samples ≤ 65536) × (last ≡ last_before s.now k) }
    ensures { result ≡ zone_right samples s.now k }
{
    let begin = zone_begin(s, k);
    let end = zone_end(s, k);
    if zone_type(s, k) != 0 {
        return begin == 0 && end == 0;
    }
    let fiducial = usize::from(fiducial_of(s));
    let centre = zone_fiducial(s, k) as usize;
    1 <= begin
        && begin <= end
        && last < begin
        && centre + 1 <= begin as usize + fiducial
        && end as usize + fiducial <= centre + samples
}

// The last sample of the zones of type 0 up to zone k.
#[tactic(auto, unfolding(crate::specs::Section4::last_before))]
fn last_after(s: &[u8], k: u16, last: u32) -> u32
    requires { last ≡ last_before s.now k }
    ensures { result ≡ last_before s.now (k + 1) }
{
    if zone_type(s, k) == 0 {
        zone_end(s, k)
    } else {
        last
    }
}

// Every one of n zones keeps its rule.
#[tactic(auto, using(wire::proofs::Tests::turn_kept, wire::proofs::Tests::turn_broken, wire::proofs::Tests::turns_done), unfolding(crate::specs::Section4::last_before))]
fn zones_right(s: &[u8], n: u16, samples: usize) -> bool
    requires { samples ≤ 65536 }
    ensures { result ≡ all_in 0 n (zone_right samples s.now) }
{
    let mut last = 0;
    for k in 0..n {
        if !zone_right(s, k, samples, last) {
            return false;
        }
        last = last_after(s, k, last);
    }
    true
}

// Section 4 keeps its rule, for a beat of `samples` samples.
#[tactic(auto, unfolding(crate::specs::Section4::section4_right))]
pub fn section4_right(s: &[u8], samples: usize) -> bool
    ensures { result ≡ section4_right samples s.now }
{
    let fiducial = usize::from(fiducial_of(s));
    let n = qrs_count(s);
    1 <= samples
        && samples <= wire::MOST_SAMPLES
        && 1 <= fiducial
        && fiducial <= samples
        && n <= 1024
        && 22 + 14 * usize::from(n) <= s.len()
        && zones_right(s, n, samples)
}
