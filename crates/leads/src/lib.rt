// Reading a lead, every sample exact (01, Leads and samples; refusals 1 to 14). The beat's stream is read into the work space, the
// lead's into room of its own, and the output is written when all is right: a refusal changes nothing but the work space. The answer
// has the sum of the structures compared (Q-6).
#![tactic(auto)]

ghost use Rattle.std.specs.Prelude.{◌≡◌, true, false, List, ◌++◌, ℕ, ◌+◌, ◌-◌, ◌*◌, ◌<◌, ◌≤◌, ℤ, pos, length, take, drop, replicate, MatchResult};
ghost use Rattle.refusals.specs.Refusals.{refusal_in, number_of};
ghost use Rattle.rules.specs.LeadRules.{lead_count_of, beat_subtracted, beat_sample_count, beat_right, lead_refusal};
ghost use Rattle.compiled.specs.InnerForm.{CompiledOrNone};
ghost use Rattle.samples.specs.Trace.{rebuilt, fault};
ghost use Rattle.samples.specs.InnerTrace.{trace_of};
ghost use Rattle.leads.specs.LeadTrace.{tables_of, sample_count_at, stream_trace, trace_at, room_right, read_refusal, read_trace};
ghost use Rattle.leads.specs.LeadCompared.{stream_compared, compared_at};
ghost use Rattle.leads.specs.InnerHeld.{held_prop};
ghost use Rattle.leads.specs.InnerLead.{Readable, cleared_if, most_sum, Summed};
ghost use Rattle.leads.specs.LeadAnswers.{lead_of, lead_answer, out_after, work_after, entry_of, entry_answer};

use refusals::Refusal;

// The answer of reading a lead, beside its samples, as C reads it: 0 or a refusal number, and on a refusal nothing else.
#[repr(C)]
#[derive(Clone, Copy, Default)]
pub struct Lead {
    pub refusal: u8,
    pub id: u8,
    pub flags: u8,
    pub step: u16,
    pub interval: u16,
    pub first: u32,
    pub count: u32,
    pub compared: u32,
}

// The facts that Sections 3 and 6 give of a lead, as C reads them; on a refusal its number alone.
#[repr(C)]
#[derive(Clone, Copy, Default)]
pub struct Entry {
    pub refusal: u8,
    pub id: u8,
    pub flags: u8,
    pub order: u8,
    pub step: u16,
    pub interval: u16,
    pub first: u32,
    pub last: u32,
    pub leads: u32,
    pub bytes: u32,
}

// A lead of at most this many samples is read in small room, since all of the room is cleared first.
const SMALL_ROOM: usize = 8192;

// A lead's samples go to the output. Out of line: where the compiler sees that the room is a call's own, it makes a call of `memcpy` of
// the loop.
#[inline(never)]
fn put_samples(room: &[i16], out: &mut [i16])
    requires { length room.now ≡ length out.old }
    ensures { out.new ≡ room.now }
{
    wire::copy(room, out);
}

// Lead k of a record whose Sections 3 to 6 were judged, and the numbers that hold the record's code tables.
#[derive(Clone, Copy)]
struct Stored<'a> {
    rec: &'a [u8],
    tab: &'a [u32],
    k: u8,
    ghost count: { sample_count_at rec.now k ≤ 65536 },
    ghost beat: { beat_right rec.now ≡ true },
    ghost held: { CompiledOrNone (tables_of rec.now) tab.now } by { held_prop (tables_of rec.now) tab.now },
}

impl<'a> Stored<'a> {
    // Its stream in Section 5 or 6 is rebuilt into the room.
    #[tactic(auto, unfolding(crate::specs::LeadTrace::stream_trace, crate::specs::LeadCompared::stream_compared))]
    fn stream_into(self, section: u8, room: &mut [i16]) -> Result<usize, Refusal>
        ensures traced { (trace_of (refusal_in result) room.new ≡ stream_trace self.entry.rec.now section (length room.old) self.entry.k)
            × (length room.new ≡ length room.old) }
        ensures summed { Summed (stream_compared self.entry.rec.now section (length room.old) self.entry.k) most_sum result }
    {
        let s = pointers::section_of(self.rec, section);
        let stream = entries::stream_of(s, rules::leads_of(self.rec), self.k);
        traces::rebuild(stream, self.tab, usize::from(entries::order_of(s)), room)
    }

    // The beat is rebuilt, then the residual in the room, and the beat is added to it.
    #[tactic(auto, using(crate::proofs::Laws::trace_err, crate::proofs::Laws::beat_fault, crate::proofs::Laws::residual_fault, crate::proofs::Laws::beat_added, crate::proofs::Laws::compared_both, rules::proofs::Laws::beat_kept))]
    fn with_beat(self, room: &mut [i16], beat: &mut [i16]) -> Result<usize, Refusal>
        requires subtracted { beat_subtracted self.rec.now ≡ true }
        requires room_len { (length room.old ≡ sample_count_at self.rec.now self.k) × (length beat.old ≡ beat_sample_count self.rec.now) }
        ensures traced { (trace_of (refusal_in result) room.new ≡ trace_at self.entry.rec.now self.entry.k) × (length room.new ≡ length room.old) }
        ensures summed { Summed (compared_at self.entry.rec.now self.entry.k) (2 * most_sum) result }
    {
        let of_beat = self.stream_into(5, beat)?;
        let own = self.stream_into(6, room)?;
        let first = entries::first_sample(pointers::section_of(self.rec, 3), self.k);
        beats::add_beat(pointers::section_of(self.rec, 4), beat, first, room)?;
        Ok(of_beat + own)
    }

    // Rebuilt in the room. Where a beat was subtracted it is rebuilt in the work space, all of which is then cleared.
    #[tactic(auto, using(crate::proofs::Laws::without_beat, crate::proofs::Laws::compared_own, crate::proofs::Laws::summed_more, rules::proofs::Laws::interval_there))]
    fn lead_into(self, room: &mut [i16], work: &mut [i16]) -> Result<usize, Refusal>
        requires room_len { length room.old ≡ sample_count_at self.rec.now self.k }
        requires beat_room { beat_subtracted self.rec.now ≡ true → beat_sample_count self.rec.now ≤ length work.old }
        ensures traced { (trace_of (refusal_in result) room.new ≡ trace_at self.entry.rec.now self.entry.k) × (length room.new ≡ length room.old) }
        ensures cleared { work.new ≡ cleared_if (beat_subtracted self.entry.rec.now) work.old }
        ensures summed { Summed (compared_at self.entry.rec.now self.entry.k) (2 * most_sum) result }
    {
        if !rules::has_beat(self.rec) {
            return self.stream_into(6, room);
        }
        let n = rules::beat_sample_count(self.rec);
        let rebuilt = self.with_beat(room, &mut work[..n]);
        work.fill(0);
        rebuilt
    }

    // Rebuilt in room of its own for N samples, and copied to the output if nothing was refused.
    fn read_in<const N: usize>(self, out: &mut [i16], work: &mut [i16]) -> Result<usize, Refusal>
        requires room_len { (N ≤ 65536) × (sample_count_at self.rec.now self.k ≤ N) × (sample_count_at self.rec.now self.k ≤ length out.old) }
        requires beat_room { beat_subtracted self.rec.now ≡ true → beat_sample_count self.rec.now ≤ length work.old }
        ensures traced { (xs : List ℤ) × (trace_of (refusal_in result) xs ≡ trace_at self.entry.rec.now self.entry.k) }
        ensures samples { out.new ≡ out_after (trace_at self.entry.rec.now self.entry.k) out.old }
        ensures cleared { work.new ≡ cleared_if (beat_subtracted self.entry.rec.now) work.old }
        ensures summed { Summed (compared_at self.entry.rec.now self.entry.k) (2 * most_sum) result }
    {
        let n = entries::sample_count(pointers::section_of(self.rec, 3), self.k);
        let mut room = [0; N];
        let compared = self.lead_into(&mut room[..n], work)?;
        put_samples(&room[..n], &mut out[..n]);
        Ok(compared)
    }
}

// Lead k is read by the record's tables, in room of its own: small if it is short, since all of the room is cleared first.
#[tactic(auto, using(crate::proofs::Laws::tables_judged, crate::proofs::Laws::tables_are))]
fn read_into(rec: &[u8], k: u8, out: &mut [i16], work: &mut [i16]) -> Result<usize, Refusal>
    requires readable { Readable rec.now k (length work.old) }
    requires k_in_bounds { sample_count_at rec.now k ≤ length out.old }
    ensures traced { (xs : List ℤ) × (trace_of (refusal_in result) xs ≡ trace_at rec.now k) }
    ensures samples { out.new ≡ out_after (trace_at rec.now k) out.old }
    ensures cleared { work.new ≡ cleared_if (beat_subtracted rec.now) work.old }
    ensures summed { Summed (compared_at rec.now k) (2 * most_sum) result }
{
    let mut numbers = compiled::room();
    let section2 = pointers::is_present(rec, 2).then_some(pointers::section_of(rec, 2));
    let tab = compiled::hold(section2, 16, 1, &mut numbers);
    let lead = Stored { rec, tab, k };
    if entries::sample_count(pointers::section_of(rec, 3), k) <= SMALL_ROOM {
        lead.read_in::<SMALL_ROOM>(out, work)
    } else {
        lead.read_in::<{ wire::MOST_SAMPLES }>(out, work)
    }
}

// The room lent is enough for the lead at a place.
#[tactic(auto, using(crate::proofs::Laws::placed, rules::proofs::Laws::interval_there), unfolding(crate::specs::LeadTrace::room_right))]
fn room_right(rec: &[u8], place: usize, out: usize, work: usize) -> bool
    requires { lead_refusal rec.now place ≡ 0 }
    ensures { result ≡ room_right rec.now (place - 1) out work }
{
    let k = (place - 1) as u8;
    entries::sample_count(pointers::section_of(rec, 3), k) <= out
        && (!rules::has_beat(rec) || rules::beat_sample_count(rec) <= work)
}

// The smallest of 1 to 11 that applies.
#[tactic(auto, unfolding(crate::specs::LeadTrace::read_refusal))]
fn judge_reading(rec: &[u8], place: usize, out: usize, work: usize) -> Result<(), Refusal>
    ensures { refusal_in result ≡ read_refusal rec.now place out work }
{
    rules::judge_lead(rec, place)?;
    Refusal::Room.unless(room_right(rec, place, out, work))
}

// The answer that goes with lead k's samples, where so many structures were compared.
fn lead_at(rec: &[u8], k: u8, compared: usize) -> Lead
    requires { (sample_count_at rec.now k ≤ 65536) × (compared ≡ compared_at rec.now k) × (compared ≤ 2 * most_sum) }
    ensures { (xs : List ℤ) → length xs ≡ sample_count_at rec.now k → result ≡ lead_of rec.now k (rebuilt xs) }
{
    let s = pointers::section_of(rec, 3);
    let t = pointers::section_of(rec, 6);
    Lead {
        refusal: 0,
        id: entries::lead_id(s, k),
        flags: entries::flags_of(s),
        step: entries::step_of(t),
        interval: entries::interval_of(t),
        first: entries::first_sample(s, k),
        count: entries::sample_count(s, k) as u32,
        compared: compared as u32,
    }
}

// The facts that Sections 3 and 6 give of lead k.
fn entry_at(rec: &[u8], k: u8) -> Entry
    ensures { result ≡ entry_of rec.now k 0 }
{
    let s = pointers::section_of(rec, 3);
    let t = pointers::section_of(rec, 6);
    Entry {
        refusal: 0,
        id: entries::lead_id(s, k),
        flags: entries::flags_of(s),
        order: entries::order_of(t),
        step: entries::step_of(t),
        interval: entries::interval_of(t),
        first: entries::first_sample(s, k),
        last: entries::last_sample(s, k),
        leads: u32::from(rules::leads_of(rec)),
        bytes: u32::from(entries::stream_bytes(t, k)),
    }
}

// The lead at a place, from 1, and its samples to the front of the output.
#[tactic(auto, using(crate::proofs::Laws::lead_readable, crate::proofs::Laws::lead_there, crate::proofs::Laws::refused_trace, crate::proofs::Laws::trace_read, crate::proofs::Laws::work_cleared))]
fn read(rec: &[u8], place: usize, out: &mut [i16], work: &mut [i16]) -> Result<Lead, Refusal>
    ensures answer { MatchResult result (λ lead. lead ≡ lead_answer rec.now place (length out.old) (length work.old))
        (λ e. fault (number_of e) ≡ read_trace rec.now place (length out.old) (length work.old)) }
    ensures samples { out.new
        ≡ out_after (read_trace rec.now place (length out.old) (length work.old)) out.old }
    ensures cleared { work.new ≡ work_after rec.now place (length out.old) work.old }
{
    judge_reading(rec, place, out.len(), work.len())?;
    let k = (place - 1) as u8;
    let compared = read_into(rec, k, out, work)?;
    Ok(lead_at(rec, k, compared))
}

// The lead at a place, from 1: its samples to the front of the output.
pub fn read_lead(rec: &[u8], place: usize, out: &mut [i16], work: &mut [i16]) -> Lead
    ensures answer { result ≡ lead_answer rec.now place (length out.old) (length work.old) }
    ensures samples { out.new
        ≡ out_after (read_trace rec.now place (length out.old) (length work.old)) out.old }
    ensures cleared { work.new ≡ work_after rec.now place (length out.old) work.old }
{
    match read(rec, place, out, work) {
        Ok(lead) => lead,
        Err(refusal) => Lead {
            refusal: refusal.number(),
            ..Lead::default()
        },
    }
}

// The entry of the lead at a place, from 1: judged as reading it is, no stream read.
#[tactic(auto, using(crate::proofs::Laws::placed))]
pub fn lead_entry(rec: &[u8], place: usize) -> Entry
    ensures { result ≡ entry_answer rec.now place }
{
    match rules::judge_lead(rec, place) {
        Ok(()) => entry_at(rec, (place - 1) as u8),
        Err(refusal) => Entry {
            refusal: refusal.number(),
            ..Entry::default()
        },
    }
}
