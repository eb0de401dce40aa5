// Adding a record to the auditor's index (02, Q-13): its entry, the place where it goes, and the bytes afterwards (refusals 26, 1 to 6, 8,
// 24 and 11).
#![tactic(auto)]

ghost use Rattle.std.specs.Prelude.{◌≡◌, true, ◌++◌, ◌+◌, ◌<◌, ◌≤◌, length, take, drop, IfOk};
ghost use Rattle.refusals.specs.Refusals.{refusal_in};
ghost use Rattle.wire.specs.Numbers.{part};
ghost use Rattle.packing.specs.Packing.{packed};
ghost use Rattle.index.specs.Entry.{head_bits, entry_bytes, entry_size};
ghost use Rattle.index.specs.Index.{entries_in, index_right, up_to};
ghost use Rattle.index.specs.InnerSteps.{Whole, Passed};
ghost use Rattle.filing.specs.Filing.{section3_kept, leads_of, entry_of, add_refusal, add_answer, place_for, put_in, index_after};
ghost use Rattle.filing.specs.InnerFiling.{filed, filed_as, date_on, indexed};

mod entry;

use entry::Filed;
use index::Date;
use packing::Sink;
use record::Opened;
use refusals::Refusal;

// The answer, as C reads it: the refusal, or 0 and how many bytes of the index are in use now.
#[repr(C)]
#[derive(Clone, Copy)]
pub struct Indexed {
    pub refusal: u8,
    pub used: usize,
}

impl From<Result<usize, Refusal>> for Indexed {
    ghost from_gives = { λ r w. w ≡ indexed r };

    fn from(answer: Result<usize, Refusal>) -> Indexed {
        match answer {
            Ok(used) => Indexed { refusal: 0, used },
            Err(refusal) => Indexed {
                refusal: refusal.number(),
                used: 0,
            },
        }
    }
}

impl<'a> Filed<'a> {
    // How many bytes the entry has.
    fn size(self) -> usize
        ensures { result ≡ entry_size (filed_as self.entry) }
    {
        index::HEAD_SIZE + self.identifier.len()
    }
}

// 8: Section 3 is absent or keeps its rule.
#[tactic(auto, unfolding(crate::specs::Filing::section3_kept))]
fn section3_kept(rec: &[u8]) -> bool
    ensures { result ≡ section3_kept rec.now }
{
    !pointers::is_present(rec, 3) || entries::section3_right(pointers::section_of(rec, 3))
}

// How many leads Section 3 says, and 0 without it.
#[tactic(auto, unfolding(crate::specs::Filing::leads_of))]
fn leads_of(rec: &[u8]) -> u8
    ensures { result ≡ leads_of rec.now }
{
    if pointers::is_present(rec, 3) {
        entries::lead_count(pointers::section_of(rec, 3))
    } else {
        0
    }
}

// The day of the recording.
fn date_of(rec: Opened) -> Date
    ensures { result ≡ date_on rec.entry.bytes.now }
{
    let date = fields::field_of(rec.bytes, 25);
    Date {
        year: wire::number16(date, 0) as u16,
        month: wire::byte(date, 2) as u8,
        day: wire::byte(date, 3) as u8,
    }
}

// The record's entry, or the first refusal that applies.
#[tactic(auto, using(crate::proofs::Laws::adding), unfolding(crate::specs::Filing::add_refusal, crate::specs::Filing::date_kept, crate::specs::Filing::room_right, crate::specs::Filing::entry_of, record::specs::Opening::opens))]
fn judge_adding<'a>(lent: &[u8], used: usize, rec: &'a [u8]) -> Result<Filed<'a>, Refusal>
    ensures refusal { refusal_in result ≡ add_refusal lent.now used rec.now }
    ensures entry { IfOk result (λ entry. filed_as entry ≡ entry_of rec.now) }
{
    Refusal::Index.unless(index::index_right(lent, used))?;
    let opened = Opened::new(rec)?;
    Refusal::LeadSections.unless(section3_kept(rec))?;
    let date = date_of(opened);
    Refusal::Date.unless(index::date_right(usize::from(date.month), usize::from(date.day)))?;
    let entry = Filed {
        identifier: fields::identifier_of(opened.bytes),
        date,
        leads: leads_of(rec),
    };
    Refusal::Room.unless(entry.size() <= lent.len() - used)?;
    Ok(entry)
}

// The place of an entry among those of an index from a place on: in front of the first that it comes before.
#[tactic(auto, unfolding(index::specs::Order::before))]
pub fn place_for(s: &[u8], from: usize, id: &[u8], date: Date) -> usize
    requires { Whole s.now from }
    ensures { Passed (up_to (filed id.now date 0)) s.now from result }
{
    index::behind(
        s,
        from,
        |e| !index::is_before(id, date, index::identifier_of(s, e), index::date_of(e)),
    )
}

// What is in use from a place on moves on by `size` bytes.
fn move_on(lent: &mut [u8], at: usize, used: usize, size: usize)
    requires { (at ≤ used) × (used + size ≤ length lent.old) }
    ensures { lent.new ≡ take (at + size) lent.old
        ++ (part lent.old at used ++ drop (used + size) lent.old) }
{
    lent.copy_within(at..used, at + size);
}

// The numbers of an entry in its first five bytes, a line each with its bits.
#[tactic(auto, using(crate::proofs::Laws::none_put))]
fn put_head(out: &mut [u8], entry: Filed)
    requires { 5 ≤ length out.old }
    ensures { out.new ≡ packed (head_bits (filed_as entry.entry)) ++ drop 5 out.old }
{
    let s = Sink::new().put(out, entry.identifier.len(), 6);
    let s = s.put(out, usize::from(entry.date.year), 16);
    let s = s.put(out, usize::from(entry.date.month), 4);
    let s = s.put(out, usize::from(entry.date.day), 5);
    let s = s.put(out, usize::from(entry.leads), 8);
    let s = s.put(out, 0, 1);
    s.end(out);
}

// An entry in its own part of the index.
fn put_entry(out: &mut [u8], entry: Filed)
    requires { length out.old ≡ entry_size (filed_as entry) }
    ensures { out.new ≡ entry_bytes (filed_as entry.entry) }
{
    put_head(out, entry);
    wire::copy(entry.identifier, &mut out[index::HEAD_SIZE..]);
}

// An entry is put in at its place.
#[tactic(auto, using(index::proofs::Found::places))]
fn put_in(lent: &mut [u8], used: usize, entry: Filed) -> usize
    requires { (index_right lent.old used ≡ true) × (used + entry_size (filed_as entry) ≤ length lent.old) }
    ensures { (result ≡ used + entry_size (filed_as entry.entry))
        × (lent.new ≡ put_in lent.old used
        (place_for (filed_as entry.entry) (entries_in (take used lent.old))) (filed_as entry.entry)) }
{
    let size = entry.size();
    let at = place_for(&lent[..used], 0, entry.identifier, entry.date);
    move_on(lent, at, used, size);
    put_entry(&mut lent[at..at + size], entry);
    used + size
}

// A record's entry is put in, unless it is refused.
#[tactic(auto, using(crate::proofs::Laws::all_kept_lem), unfolding(crate::specs::Filing::add_answer, crate::specs::Filing::index_after))]
fn file(lent: &mut [u8], used: usize, rec: &[u8]) -> Result<usize, Refusal>
    ensures answer { indexed result ≡ add_answer lent.old used rec.now }
    ensures bytes { lent.new ≡ index_after lent.old used rec.now }
{
    let entry = judge_adding(lent, used, rec)?;
    Ok(put_in(lent, used, entry))
}

// A record is added to the index.
pub fn add(lent: &mut [u8], used: usize, rec: &[u8]) -> Indexed
    ensures answer { result ≡ add_answer lent.old used rec.now }
    ensures bytes { lent.new ≡ index_after lent.old used rec.now }
{
    Indexed::from(file(lent, used, rec))
}
