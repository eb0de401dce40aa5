// Merging two of the auditor's indexes into one: b's entries go in among a's, each behind all that are not greater (refusals 26 and 11).
#![tactic(auto)]

ghost use Rattle.std.specs.Prelude.{◌≡◌, true, ◌++◌, ◌+◌, ◌≤◌, ◌<◌, length, take, drop};
ghost use Rattle.wire.specs.Numbers.{part};
ghost use Rattle.refusals.specs.Refusals.{refusal_in};
ghost use Rattle.filing.specs.InnerFiling.{indexed};
ghost use Rattle.index.specs.Index.{index_bytes, entries_in, is_index};
ghost use Rattle.index.specs.InnerSteps.{Whole};
ghost use Rattle.merging.specs.Merging.{merged, merge_refusal, merge_answer, merged_into};
ghost use Rattle.merging.specs.InnerMerging.{Next};

use filing::Indexed;
use refusals::Refusal;

// How far each index has been copied.
#[derive(Clone, Copy)]
struct Reached {
    a: usize,
    b: usize,
}

// The first refusal that applies.
#[tactic(auto, unfolding(crate::specs::Merging::merge_refusal))]
fn judge_merging(a: &[u8], b: &[u8], room: usize) -> Result<(), Refusal>
    ensures { refusal_in result ≡ merge_refusal a.now b.now room }
{
    Refusal::Index.unless(index::is_index(a))?;
    Refusal::Index.unless(index::is_index(b))?;
    Refusal::Room.unless(a.len() <= room && b.len() <= room - a.len())
}

// Copies the next entry of b, behind those of a that are not greater.
fn copy_next(a: &[u8], b: &[u8], from: Reached, out: &mut [u8]) -> Reached
    requires { (Whole a.now from.a) × (Whole b.now from.b) × (from.b < length b.now) × (length a.now + length b.now ≤ length out.old) }
    ensures reached { Next a.now from.a b.now from.b result }
    ensures bytes { out.new ≡ take (from.a + from.b) out.old
        ++ (part a.now from.a result.a ++ (part b.now from.b result.b ++ drop (result.a + result.b) out.old)) }
{
    let f = index::entry_at(b, from.b);
    let place = filing::place_for(a, from.a, index::identifier_of(b, f), index::date_of(f));
    layout::put_bytes(out, from.a + from.b, wire::part_of(a, from.a, place));
    layout::put_bytes(out, place + from.b, wire::part_of(b, from.b, f.next));
    Reached {
        a: place,
        b: f.next,
    }
}

// Copies the entries of both to the front of the output, in order.
fn copy_all(a: &[u8], b: &[u8], out: &mut [u8])
    requires { (is_index a.now ≡ true) × (is_index b.now ≡ true) × (length a.now + length b.now ≤ length out.old) }
    ensures { out.new ≡ index_bytes (merged (entries_in a.now) (entries_in b.now))
        ++ drop (length a.now + length b.now) out.old }
{
    wire::bytes_fit(a);
    wire::bytes_fit(b);
    let mut reached = Reached { a: 0, b: 0 };
    while reached.b < b.len() {
        reached = copy_next(a, b, reached, out);
    }
    layout::put_bytes(
        out,
        reached.a + reached.b,
        wire::part_of(a, reached.a, a.len()),
    );
}

// Both are copied, unless this is refused.
#[tactic(auto, using(crate::proofs::Merged::all_kept_lem), unfolding(crate::specs::Merging::merge_answer, crate::specs::Merging::merged_into))]
fn merge_into(a: &[u8], b: &[u8], out: &mut [u8]) -> Result<usize, Refusal>
    ensures answer { indexed result ≡ merge_answer a.now b.now (length out.old) }
    ensures bytes { out.new ≡ merged_into a.now b.now out.old }
{
    judge_merging(a, b, out.len())?;
    copy_all(a, b, out);
    Ok(a.len() + b.len())
}

// Two indexes are merged into the output.
pub fn merge(a: &[u8], b: &[u8], out: &mut [u8]) -> Indexed
    ensures answer { result ≡ merge_answer a.now b.now (length out.old) }
    ensures bytes { out.new ≡ merged_into a.now b.now out.old }
{
    Indexed::from(merge_into(a, b, out))
}
