// The reference beat added to a lead's samples (01, Leads and samples): one pass over samples and zones.
#![tactic(auto)]

ghost use Rattle.std.specs.Prelude.{◌≡◌, true, false, ℕ, ◌+◌, ◌-◌, ◌<◌, ◌≤◌, length};
ghost use Rattle.refusals.specs.Refusals.{refusal_in};
ghost use Rattle.entries.specs.Section4.{qrs_count, qrs_type, zone_end, section4_right};
ghost use Rattle.samples.specs.InnerTrace.{trace_of};
ghost use Rattle.beats.specs.Sums.{in_zone, beat_place_from, beat_value_at, add_beat};
ghost use Rattle.beats.specs.InnerZones.{Reaches, Alike};

use refusals::Refusal;

// Zone k is of type 0 and does not end before sample n.
#[tactic(auto, using(crate::proofs::Laws::miss_type, crate::proofs::Laws::miss_end))]
fn reaches(s: &[u8], k: u16, n: usize) -> bool
    ensures { (result ≡ true → (qrs_type s.now k ≡ 0) × (n ≤ zone_end s.now k))
        × (result ≡ false → (m : ℕ) → n ≤ m → in_zone s.now k m ≡ false) }
{
    entries::zone_type(s, k) == 0 && n <= entries::zone_end(s, k) as usize
}

// The first zone from k on that reaches sample n; the number of zones where there is none.
fn zone_for(s: &[u8], zones: u16, k: u16, n: usize) -> u16
    requires { k ≤ zones }
    ensures { (result ≤ zones) × Alike s.now zones k result n × Reaches s.now zones result n }
{
    (k..zones).find(|j| reaches(s, *j, n)).unwrap_or(zones)
}

// The value that sample n gets from zone k, the first that reaches it: a sample of the beat, or 0.
#[tactic(auto, using(crate::proofs::Laws::beat_there, crate::proofs::Laws::beat_inside, crate::proofs::Laws::gets_none, crate::proofs::Laws::gets_before, crate::proofs::Laws::gets_beat))]
fn beat_by(s: &[u8], beat: &[i16], zones: u16, k: u16, n: usize) -> i16
    requires { (section4_right (length beat.now) s.now ≡ true) × (zones ≡ qrs_count s.now) × (k ≤ zones) × (n ≤ 8589934592)
        × Reaches s.now zones k n }
    ensures { result ≡ beat_value_at beat.now (beat_place_from s.now (zones - k) k n) }
{
    if k == zones || n < entries::zone_begin(s, k) as usize {
        return 0;
    }
    let place = n + usize::from(entries::fiducial_of(s)) - entries::zone_fiducial(s, k) as usize;
    beat[place - 1]
}

// The beat is added to samples whose first is numbered `first`: refused where a sum is outside 16 bits.
pub fn add_beat(s: &[u8], beat: &[i16], first: u32, room: &mut [i16]) -> Result<(), Refusal>
    requires { (section4_right (length beat.now) s.now ≡ true) × (length room.old ≤ 65536) }
    ensures { (trace_of (refusal_in result) room.new ≡ add_beat s.now beat.now first room.old)
        × (length room.new ≡ length room.old) }
{
    let zones = entries::qrs_count(s);
    let mut k = 0;
    for i in 0..room.len() {
        let n = first as usize + i;
        k = zone_for(s, zones, k, n);
        let sum = room[i].checked_add(beat_by(s, beat, zones, k, n));
        room[i] = sum.ok_or(Refusal::OutOfRange)?;
    }
    Ok(())
}
