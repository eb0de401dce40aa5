// The calls of the C boundary, which crate scp_c exports: each passes on a chapter's call, on numbers and slices, with that call's contract and no `requires`.
// A refusal is 01's number; with one, every other field is 0 and no lent element is changed but the work space's, which is zeros once used.
#![tactic(auto)]

ghost use Rattle.std.specs.Prelude.{◌≡◌, not, length};
ghost use Rattle.wire.specs.Check.{crc_of};
ghost use Rattle.header.specs.Fields.{step_at};
ghost use Rattle.record.specs.Opening.{open_refusal, open_count, open_numbers};
ghost use Rattle.fields.specs.Lookup.{field_place, walk_place};
ghost use Rattle.fields.specs.Identifier.{same};
ghost use Rattle.rules.specs.Rows.{row_kept};
ghost use Rattle.leads.specs.LeadTrace.{read_trace};
ghost use Rattle.leads.specs.LeadAnswers.{lead_answer, out_after, work_after, entry_answer};
ghost use Rattle.encode.specs.Encoding.{LeadEncoding};
ghost use Rattle.compose.specs.Writing.{job_of, RecordWriting};
ghost use Rattle.index.specs.Entry.{entry_at};
ghost use Rattle.index.specs.Index.{find_place};
ghost use Rattle.filing.specs.Filing.{add_answer, index_after};
ghost use Rattle.merging.specs.Merging.{merge_answer, merged_into};
ghost use Rattle.refusals.specs.Refusals.{numbered};
ghost use Rattle.scp.specs.Boundary.{part_at, shown, one_if};

use compose::{Head, Written};
use encode::Coded;
use fields::Part;
use filing::Indexed;
use index::IndexEntry;
use leads::{Entry, Lead};
use refusals::Refusal;

// What C reads of opening: the refusal's number, or 0 and how many pointers there are.
#[repr(C)]
#[derive(Clone, Copy)]
pub struct ScpOpened {
    pub refusal: u8,
    pub count: u32,
}

// A part of the record or of the index lent, as C reads it.
#[repr(C)]
#[derive(Clone, Copy)]
pub struct ScpPart {
    pub refusal: u8,
    pub start: usize,
    pub length: usize,
}

// A step of the walk, as C reads it: a field if `more` is 1, else the end.
#[repr(C)]
#[derive(Clone, Copy)]
pub struct ScpStep {
    pub more: u8,
    pub tag: u8,
    pub start: usize,
    pub length: usize,
    pub next: usize,
}

// C takes a part or its refusal as numbers.
impl From<Result<Part, Refusal>> for ScpPart {
    ghost from_gives = { λ found part. part ≡ part_at (numbered found) };

    fn from(found: Result<Part, Refusal>) -> Self {
        match found {
            Ok(part) => ScpPart {
                refusal: 0,
                start: part.start,
                length: part.size,
            },
            Err(refusal) => ScpPart {
                refusal: refusal.number(),
                start: 0,
                length: 0,
            },
        }
    }
}

// The check of bytes.
pub fn scp_crc(bytes: &[u8]) -> u16
    ensures { result ≡ crc_of bytes.now }
{
    wire::crc(bytes)
}

// Opening: three numbers for each pointer, its ID, length and index.
pub fn scp_open(rec: &[u8], pointers: &mut [u32; 192]) -> ScpOpened
    ensures number { result.refusal ≡ open_refusal rec.now }
    ensures count { result.count ≡ open_count rec.now }
    ensures numbers { pointers.new ≡ open_numbers rec.now pointers.old }
{
    match record::open(rec, pointers) {
        Ok(count) => ScpOpened {
            refusal: 0,
            count: u32::from(count),
        },
        Err(refusal) => ScpOpened {
            refusal: refusal.number(),
            count: 0,
        },
    }
}

// A field by tag and occurrence, as a part of the record.
pub fn scp_field(rec: &[u8], tag: u8, occurrence: usize) -> ScpPart
    ensures { result ≡ part_at (field_place rec.now tag occurrence) }
{
    fields::field_place(rec, tag, occurrence).into()
}

// Two identifiers are the same: 1, else 0.
pub fn scp_same_identifier(a: &[u8], b: &[u8]) -> u8
    ensures { result ≡ one_if (same a.now b.now) }
{
    u8::from(fields::same_identifier(a, b))
}

// Section 1, over which the fields are walked: the first step is at place 16 of it.
pub fn scp_walk_start(rec: &[u8]) -> ScpPart
    ensures { result ≡ part_at (walk_place rec.now) }
{
    fields::walk_place(rec).into()
}

// A step of the walk.
pub fn scp_walk_step(section: &[u8], at: usize) -> ScpStep
    ensures { result ≡ shown at (step_at section.now at) }
{
    match header::step_at(section, at) {
        Some(f) => ScpStep {
            more: 1,
            tag: f.tag,
            start: f.start,
            length: f.size(),
            next: f.end,
        },
        None => ScpStep {
            more: 0,
            tag: 0,
            start: 0,
            length: 0,
            next: at,
        },
    }
}

// Reading the lead at a place, from 1: its samples to the front of the output. The work space is used where a beat was subtracted.
pub fn scp_read_lead(rec: &[u8], place: usize, out: &mut [i16], work: &mut [i16]) -> Lead
    ensures answer { result ≡ lead_answer rec.now place (length out.old) (length work.old) }
    ensures samples { out.new
        ≡ out_after (read_trace rec.now place (length out.old) (length work.old)) out.old }
    ensures cleared { work.new ≡ work_after rec.now place (length out.old) work.old }
{
    leads::read_lead(rec, place, out, work)
}

// The entry of the lead at a place, from 1, judged as reading it is; no stream is read.
pub fn scp_lead(rec: &[u8], place: usize) -> Entry
    ensures { result ≡ entry_answer rec.now place }
{
    leads::lead_entry(rec, place)
}

// The rule of a row from 1 to 9 is broken, asked alone: 1, else 0.
pub fn scp_breaks(rec: &[u8], row: u8) -> u8
    ensures { result ≡ one_if (not (row_kept rec.now row)) }
{
    u8::from(!rules::row_kept(rec, row))
}

// Encoding a lead's samples by Section 2's data, none if they are empty: the shortest stream, at the front of the output.
pub fn scp_encode_lead(
    section2: &[u8],
    samples: &[i16],
    order: u8,
    work: &mut [u8],
    out: &mut [u8],
) -> Coded
    ensures { LeadEncoding section2.now samples.now order work.old out.old
        result work.new out.new }
{
    encode::encode_lead(section2, samples, order as usize, work, out)
}

// Writing a record: Section 1's data with their end mark, Section 2's (empty: none), the numbers that apply to all leads, and the
// leads, whose samples follow one another.
pub fn scp_write_record(
    section1: &[u8],
    section2: &[u8],
    version: u8,
    flags: u8,
    step: u16,
    interval: u16,
    order: u8,
    firsts: &[u32],
    counts: &[u32],
    ids: &[u8],
    samples: &[i16],
    work: &mut [u8],
    out: &mut [u8],
) -> Written
    ensures { RecordWriting
        (job_of section1.now section2.now
        (record { version = version; flags = flags; step = step; interval = interval; order = order })
        firsts.now counts.now ids.now samples.now)
        work.old out.old result work.new out.new }
{
    let head = Head {
        version,
        flags,
        step,
        interval,
        order: order as usize,
    };
    compose::write_record(
        section1, section2, head, firsts, counts, ids, samples, work, out,
    )
}

// Adding a record to the auditor's index, of which `used` bytes are in use.
pub fn scp_index_add(index: &mut [u8], used: usize, rec: &[u8]) -> Indexed
    ensures answer { result ≡ add_answer index.old used rec.now }
    ensures bytes { index.new ≡ index_after index.old used rec.now }
{
    filing::add(index, used, rec)
}

// Merging two indexes, of which all bytes are in use, into the output.
pub fn scp_index_merge(a: &[u8], b: &[u8], out: &mut [u8]) -> Indexed
    ensures answer { result ≡ merge_answer a.now b.now (length out.old) }
    ensures bytes { out.new ≡ merged_into a.now b.now out.old }
{
    merging::merge(a, b, out)
}

// The entries of an identifier, which comes without its NUL, as a part of the index.
pub fn scp_index_find(index: &[u8], used: usize, identifier: &[u8]) -> ScpPart
    ensures { result ≡ part_at (find_place index.now used identifier.now) }
{
    index::find_place(index, used, identifier).into()
}

// The entry at a place of the index, which is not judged.
pub fn scp_index_step(index: &[u8], at: usize) -> IndexEntry
    ensures { result ≡ entry_at index.now at }
{
    index::step(index, at)
}
