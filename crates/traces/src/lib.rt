// Rebuilding a lead or a beat from its stream (01, Leads and samples; refusals 12 to 14): each code is read once, into room whose
// contents count only where nothing was refused. The structures compared are summed up (Q-6).
#![tactic(auto)]

ghost use Rattle.std.specs.Prelude.{IfOk, ◌≡◌, List, ℕ, suc, ◌+◌, ◌*◌, ◌<◌, ◌≤◌, length, drop};
ghost use Rattle.wire.specs.Bounds.{most_structures};
ghost use Rattle.refusals.specs.Refusals.{refusal_in};
ghost use Rattle.bits.specs.Bits.{bits_in};
ghost use Rattle.bits.specs.InnerRaised.{sample_zero, from_zero};
ghost use Rattle.samples.specs.InnerTrace.{trace_of};
ghost use Rattle.tables.specs.declared.Structure.{Structure};
ghost use Rattle.compiled.specs.InnerForm.{CompiledOrNone, CompiledSomeOrNone};
ghost use Rattle.reading.specs.Compared.{compared_from, compared_of};
ghost use Rattle.reading.specs.InnerCursor.{Within};
ghost use Rattle.traces.specs.Rebuilding.{rebuild_from, rebuild};
ghost use Rattle.traces.specs.InnerTrace.{trace_from, SampledWithin, SampledSum};

use reading::Cursor;
use refusals::Refusal;

// At most this many bits left over behind the last sample are ignored (01, Refusal numbers, row 14; Q-1): some carts pad a lead to an
// even number of bytes.
const MOST_LEFT_OVER: usize = 15;

// The sample at a place, behind the samples `last` and `other`, 32,768 added, and the cursor behind its code.
fn next_sample(
    c: Cursor,
    s: &[u8],
    tab: &[u32],
    order: usize,
    place: usize,
    last: usize,
    other: usize,
) -> Result<(usize, Cursor), Refusal>
    requires { CompiledSomeOrNone tab.now × (length s.now ≤ 1048576) × (last < 65536) × (other < 65536) × Within (length s.now * 8) c }
    ensures told { (tables : List (List Structure)) (left : ℕ) → CompiledOrNone tables tab.now
        → trace_from (bits_in s.now) (λ x. rebuild_from tables order left (place + 1) x (from_zero sample_zero last)) result
        ≡ rebuild_from tables order (suc left) place (from_zero sample_zero last) (from_zero sample_zero other) c.table
        (drop c.at (bits_in s.now)) }
    ensures fits { SampledWithin (length s.now * 8) result }
    ensures summed { (tables : List (List Structure)) (left : ℕ) → CompiledOrNone tables tab.now
        → SampledSum (λ d. d.compared + compared_from tables left d.table (drop d.at (bits_in s.now)))
        (c.compared + compared_from tables (suc left) c.table (drop c.at (bits_in s.now))) result }
{
    let (v, d) = c.value(s, tab).ok_or(Refusal::NoValue)?;
    let y = samples::sample_of(order, place, v, last, other);
    if y < 196608 || 262144 <= y {
        return Err(Refusal::OutOfRange);
    }
    Ok((y - 196608, d))
}

// The room is filled with the samples that a stream is rebuilt to. Answered is how many structures were compared.
pub fn rebuild(s: &[u8], tab: &[u32], order: usize, room: &mut [i16]) -> Result<usize, Refusal>
    requires { CompiledSomeOrNone tab.now × (length s.now ≤ 1048576) }
    ensures traced { ((tables : List (List Structure)) → CompiledOrNone tables tab.now
        → trace_of (refusal_in result) room.new ≡ rebuild tables order (length room.old) (bits_in s.now))
        × (length room.new ≡ length room.old) }
    ensures summed { IfOk result (λ compared. ((tables : List (List Structure)) → CompiledOrNone tables tab.now
        → compared ≡ compared_of tables (length room.old) (bits_in s.now))
        × (compared ≤ most_structures * (length s.now * 8))) }
{
    let mut c = Cursor::new();
    let mut last = bits::SAMPLE_ZERO;
    let mut other = bits::SAMPLE_ZERO;
    for (j, sample) in room.iter_mut().enumerate() {
        let (x, d) = next_sample(c, s, tab, order, j, last, other)?;
        *sample = samples::lowered(x);
        other = last;
        last = x;
        c = d;
    }
    Refusal::LeftOver.unless(s.len() * 8 - c.at <= MOST_LEFT_OVER)?;
    Ok(c.compared)
}
