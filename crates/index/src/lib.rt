// The auditor's index (02, Q-13): its entries step by step, whether bytes are an index, and the part of it that holds an identifier's
// entries (refusal 26). Every byte string and every place is answered.
#![tactic(auto)]

ghost use Rattle.std.specs.Prelude.{◌≡◌, true, Bool, ◌+◌, ◌≤◌, cond, length, take, drop, Some, None, IfOk};
ghost use Rattle.refusals.specs.Refusals.{refusal_in, numbered};
ghost use Rattle.bits.specs.Bits.{bits_in};
ghost use Rattle.bits.specs.InnerWindow.{Window};
ghost use Rattle.fields.specs.Lookup.{refusal_of, part_start, part_bytes};
ghost use Rattle.wire.specs.Numbers.{part};
ghost use Rattle.index.specs.declared.IndexEntry.{IndexEntry};
ghost use Rattle.index.specs.Entry.{Entry, date_right, is_entry, none_at, entry_at};
ghost use Rattle.index.specs.Order.{before};
ghost use Rattle.index.specs.Index.{is_index, index_right, find_place};
ghost use Rattle.index.specs.InnerSteps.{head_right, date_shown, seen, before_by, Whole, Passed};

use fields::Part;
use refusals::Refusal;

// An entry as a step shows it, and as C reads it: its numbers, where its identifier is, and the place behind it; `more` is 0 where there is none.
#[repr(C)]
#[derive(Clone, Copy)]
pub struct IndexEntry {
    pub more: u8,
    pub month: u8,
    pub day: u8,
    pub leads: u8,
    pub year: u16,
    pub start: usize,
    pub length: usize,
    pub next: usize,
}

// The day of a recording: the first of year, month and day that differ puts one before another.
#[derive(Clone, Copy, PartialEq, Eq, PartialOrd, Ord)]
pub struct Date {
    pub year: u16,
    pub month: u8,
    pub day: u8,
}

// The bytes of an entry in front of its identifier.
pub const HEAD_SIZE: usize = 5;

// The bytes of a word. A window is made of so many at once, where they are there; near the end it is put together in a loop.
const WORD_SIZE: usize = 8;

// A window on the first five bytes of an entry.
fn head_at(s: &[u8], at: usize) -> u64
    requires { at + 5 ≤ length s.now }
    ensures { Window (bits_in (take 5 (drop at s.now))) result }
{
    bits::window(wire::part_of(s, at, at + WORD_SIZE), 0)
}

// The numbers of these bytes keep their rules.
#[tactic(auto, unfolding(crate::specs::InnerSteps::head_right))]
fn head_right(size: usize, month: usize, day: usize, leads: usize, last: usize) -> bool
    ensures { result ≡ head_right size month day leads last }
{
    1 <= size && date_right(month, day) && leads <= 32 && last == 0
}

// A month is 1 to 12, a day 1 to 31.
#[tactic(auto, unfolding(crate::specs::Entry::date_right))]
pub fn date_right(month: usize, day: usize) -> bool
    ensures { result ≡ date_right month day }
{
    (1..=12).contains(&month) && (1..=31).contains(&day)
}

// A whole entry by the rules is at a place.
fn is_entry(s: &[u8], at: usize) -> bool
    ensures { result ≡ is_entry (drop at s.now) }
{
    if s.len().saturating_sub(at) < HEAD_SIZE {
        return false;
    }
    let w = head_at(s, at);
    let start = at + HEAD_SIZE;
    let size = bits::after(w, 0, 6) as usize;
    let month = bits::after(w, 22, 4) as usize;
    let day = bits::after(w, 26, 5) as usize;
    let leads = bits::after(w, 31, 8) as usize;
    let last = bits::after(w, 39, 1) as usize;
    size <= s.len() - start
        && header::no_nul(s, start, start + size)
        && head_right(size, month, day, leads, last)
}

// The entry at a place where one is: in bytes that were judged, nothing is asked again.
pub fn entry_at(s: &[u8], at: usize) -> IndexEntry
    requires { is_entry (drop at s.now) ≡ true }
    ensures { result ≡ entry_at s.now at }
{
    let w = head_at(s, at);
    let start = at + HEAD_SIZE;
    let size = bits::after(w, 0, 6) as usize;
    IndexEntry {
        more: 1,
        month: bits::after(w, 22, 4) as u8,
        day: bits::after(w, 26, 5) as u8,
        leads: bits::after(w, 31, 8) as u8,
        year: bits::after(w, 6, 16) as u16,
        start,
        length: size,
        next: start + size,
    }
}

// No entry is at a place.
fn none_at(at: usize) -> IndexEntry
    ensures { result ≡ none_at at }
{
    IndexEntry {
        more: 0,
        month: 0,
        day: 0,
        leads: 0,
        year: 0,
        start: 0,
        length: 0,
        next: at,
    }
}

// The entry at a place, if a whole one by the rules is there. (As an Option it would go through memory at each entry of a walk: a third
// slower.)
#[tactic(auto, unfolding(crate::specs::Entry::entry_at))]
pub fn step(s: &[u8], at: usize) -> IndexEntry
    ensures { result ≡ entry_at s.now at }
{
    if is_entry(s, at) {
        entry_at(s, at)
    } else {
        none_at(at)
    }
}

// What is left of two identifiers, from a place within both on, and the days: the first bytes that differ decide, then which identifier ends
// first, then the days. The order of slices says the same, and takes a third longer.
fn rest_before(a: &[u8], date: Date, b: &[u8], other: Date, from: usize) -> bool
    requires { (from ≤ length a.now) × (from ≤ length b.now) }
    ensures { result ≡ before_by (drop from a.now) date (drop from b.now) other }
{
    for i in from..a.len().min(b.len()) {
        if a[i] != b[i] {
            return a[i] < b[i];
        }
    }
    if a.len() != b.len() {
        return a.len() < b.len();
    }
    date < other
}

// One identifier and day come before others. Eight bytes are compared at once, as numbers with the first byte highest, as long as both have
// so many: that is faster than one by one.
pub fn is_before(a: &[u8], date: Date, b: &[u8], other: Date) -> bool
    ensures { result ≡ before_by a.now date b.now other }
{
    wire::bytes_fit(a);
    wire::bytes_fit(b);
    let n = a.len().min(b.len());
    let mut i = 0;
    while WORD_SIZE <= n - i {
        let v = bits::word(a, i);
        let w = bits::word(b, i);
        if v != w {
            return v < w;
        }
        i += WORD_SIZE;
    }
    rest_before(a, date, b, other, i)
}

// The day that a step shows.
pub fn date_of(e: IndexEntry) -> Date
    ensures { result ≡ date_shown e }
{
    Date {
        year: e.year,
        month: e.month,
        day: e.day,
    }
}

// The identifier that a step shows of these bytes.
pub fn identifier_of(s: &[u8], e: IndexEntry) -> &[u8]
    ensures { result.now ≡ part s.now e.start e.next }
{
    wire::part_of(s, e.start, e.next)
}

// One entry that a step shows comes before another.
#[tactic(auto, unfolding(crate::specs::Order::before))]
fn stands_before(s: &[u8], e: IndexEntry, f: IndexEntry) -> bool
    ensures { result ≡ before (seen s.now e) (seen s.now f) }
{
    is_before(
        identifier_of(s, e),
        date_of(e),
        identifier_of(s, f),
        date_of(f),
    )
}

// Whole entries by the rules take up all bytes, in order. `last` starts as no entry: its identifier is empty, and nothing comes before that.
pub fn is_index(s: &[u8]) -> bool
    ensures { result ≡ is_index s.now }
{
    let mut last = none_at(0);
    while last.next < s.len() {
        let at = last.next;
        if !is_entry(s, at) {
            return false;
        }
        let e = entry_at(s, at);
        if stands_before(s, e, last) {
            return false;
        }
        last = e;
    }
    true
}

// 26: no more bytes are in use than were lent, and these are an index.
#[tactic(auto, unfolding(crate::specs::Index::index_right))]
pub fn index_right(lent: &[u8], used: usize) -> bool
    ensures { result ≡ index_right lent.now used }
{
    used <= lent.len() && is_index(&lent[..used])
}

// The place in an index behind the entries from a place on that keep a rule.
pub fn behind<F: Fn(IndexEntry) -> bool>(s: &[u8], from: usize, keeps: F) -> usize
    requires whole { Whole s.now from }
    requires callable { F.IsAlwaysCallable keeps }
    ensures passed { (rule : Entry → Bool)
        → ((e : IndexEntry) (b : Bool) → F.post keeps e b → b ≡ rule (seen s.now e))
        → Passed rule s.now from result }
    ensures whole { Whole s.now result }
{
    let mut at = from;
    while at < s.len() {
        let e = entry_at(s, at);
        if !keeps(e) {
            return at;
        }
        at = e.next;
    }
    at
}

// Where the entries of an identifier are in the index, those of smaller ones before them; none are at place 0.
#[tactic(auto, using(crate::proofs::Found::places), unfolding(crate::specs::Index::find_place))]
pub fn find_place(lent: &[u8], used: usize, id: &[u8]) -> Result<Part, Refusal>
    ensures { numbered result ≡ find_place lent.now used id.now }
{
    Refusal::Index.unless(index_right(lent, used))?;
    let s = &lent[..used];
    // of one day, so that the identifiers decide
    let start = behind(
        s,
        0,
        |e| is_before(identifier_of(s, e), date_of(e), id, date_of(e)),
    );
    let end = behind(
        s,
        start,
        |e| fields::same_identifier(identifier_of(s, e), id),
    );
    if start < end {
        Ok(Part {
            start,
            size: end - start,
        })
    } else {
        Ok(Part { start: 0, size: 0 })
    }
}

// Their bytes: that part of the lent index itself.
#[tactic(auto, using(crate::proofs::Found::found_inside))]
pub fn find<'a>(lent: &'a [u8], used: usize, id: &[u8]) -> Result<&'a [u8], Refusal>
    ensures number { refusal_in result ≡ refusal_of (find_place lent.now used id.now) }
    ensures bytes { IfOk result (λ b. b.now ≡ part_bytes lent.now (find_place lent.now used id.now)) }
    ensures itself { IfOk result (λ b. (b.ref_ptr.0 ≡ lent.entry.ref_ptr.0)
        × (b.ref_ptr.1 ≡ part_start (find_place lent.now used id.now) + lent.entry.ref_ptr.1)) }
{
    Ok(find_place(lent, used, id)?.of(lent))
}
