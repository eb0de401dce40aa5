// The exports of the proved library for C: each passes on the call of its name of crate scp, with that call's contract.
#![tactic(auto)]

ghost use Rattle.std.specs.Prelude.{◌≡◌, not, length};
ghost use Rattle.wire.specs.Check.{crc_of};
ghost use Rattle.header.specs.Fields.{step_at};
ghost use Rattle.record.specs.Opening.{open_refusal, open_count, open_numbers};
ghost use Rattle.fields.specs.Lookup.{field_place, walk_place};
ghost use Rattle.fields.specs.Identifier.{same};
ghost use Rattle.rules.specs.Rows.{row_kept};
ghost use Rattle.leads.specs.LeadTrace.{read_trace};
ghost use Rattle.leads.specs.LeadAnswers.{lead_answer, out_after, work_after, entry_answer};
ghost use Rattle.encode.specs.Encoding.{LeadEncoding};
ghost use Rattle.compose.specs.Writing.{job_of, RecordWriting};
ghost use Rattle.index.specs.Entry.{entry_at};
ghost use Rattle.index.specs.Index.{find_place};
ghost use Rattle.filing.specs.Filing.{add_answer, index_after};
ghost use Rattle.merging.specs.Merging.{merge_answer, merged_into};
ghost use Rattle.scp.specs.Boundary.{part_at, shown, one_if};

use compose::Written;
use encode::Coded;
use filing::Indexed;
use index::IndexEntry;
use leads::{Entry, Lead};
use scp::{ScpOpened, ScpPart, ScpStep};

// The check of bytes.
#[unsafe(no_mangle)]
pub extern "C" fn scp_crc(bytes: &[u8]) -> u16
    ensures { result ≡ crc_of bytes.now }
{
    scp::scp_crc(bytes)
}

// Opening: three numbers for each pointer, its ID, length and index.
#[unsafe(no_mangle)]
pub extern "C" fn scp_open(rec: &[u8], pointers: &mut [u32; 192]) -> ScpOpened
    ensures number { result.refusal ≡ open_refusal rec.now }
    ensures count { result.count ≡ open_count rec.now }
    ensures numbers { pointers.new ≡ open_numbers rec.now pointers.old }
{
    scp::scp_open(rec, pointers)
}

// A field by tag and occurrence, as a part of the record.
#[unsafe(no_mangle)]
pub extern "C" fn scp_field(rec: &[u8], tag: u8, occurrence: usize) -> ScpPart
    ensures { result ≡ part_at (field_place rec.now tag occurrence) }
{
    scp::scp_field(rec, tag, occurrence)
}

// Two identifiers are the same: 1, else 0.
#[unsafe(no_mangle)]
pub extern "C" fn scp_same_identifier(a: &[u8], b: &[u8]) -> u8
    ensures { result ≡ one_if (same a.now b.now) }
{
    scp::scp_same_identifier(a, b)
}

// Section 1, over which the fields are walked: the first step is at place 16 of it.
#[unsafe(no_mangle)]
pub extern "C" fn scp_walk_start(rec: &[u8]) -> ScpPart
    ensures { result ≡ part_at (walk_place rec.now) }
{
    scp::scp_walk_start(rec)
}

// A step of the walk.
#[unsafe(no_mangle)]
pub extern "C" fn scp_walk_step(section: &[u8], at: usize) -> ScpStep
    ensures { result ≡ shown at (step_at section.now at) }
{
    scp::scp_walk_step(section, at)
}

// Reading the lead at a place, from 1: its samples to the front of the output. The work space is used where a beat was subtracted.
#[unsafe(no_mangle)]
pub extern "C" fn scp_read_lead(rec: &[u8], place: usize, out: &mut [i16], work: &mut [i16]) -> Lead
    ensures answer { result ≡ lead_answer rec.now place (length out.old) (length work.old) }
    ensures samples { out.new
        ≡ out_after (read_trace rec.now place (length out.old) (length work.old)) out.old }
    ensures cleared { work.new ≡ work_after rec.now place (length out.old) work.old }
{
    scp::scp_read_lead(rec, place, out, work)
}

// The entry of the lead at a place, from 1, judged as reading it is; no stream is read.
#[unsafe(no_mangle)]
pub extern "C" fn scp_lead(rec: &[u8], place: usize) -> Entry
    ensures { result ≡ entry_answer rec.now place }
{
    scp::scp_lead(rec, place)
}

// The rule of a row from 1 to 9 is broken, asked alone: 1, else 0.
#[unsafe(no_mangle)]
pub extern "C" fn scp_breaks(rec: &[u8], row: u8) -> u8
    ensures { result ≡ one_if (not (row_kept rec.now row)) }
{
    scp::scp_breaks(rec, row)
}

// Encoding a lead's samples by Section 2's data, none if they are empty: the shortest stream, at the front of the output.
#[unsafe(no_mangle)]
pub extern "C" fn scp_encode_lead(
    section2: &[u8],
    samples: &[i16],
    order: u8,
    work: &mut [u8],
    out: &mut [u8],
) -> Coded
    ensures { LeadEncoding section2.now samples.now order work.old out.old
        result work.new out.new }
{
    scp::scp_encode_lead(section2, samples, order, work, out)
}

// Writing a record: Section 1's data with their end mark, Section 2's (empty: none), the numbers that apply to all leads, and the
// leads, whose samples follow one another.
#[unsafe(no_mangle)]
pub extern "C" fn scp_write_record(
    section1: &[u8],
    section2: &[u8],
    version: u8,
    flags: u8,
    step: u16,
    interval: u16,
    order: u8,
    firsts: &[u32],
    counts: &[u32],
    ids: &[u8],
    samples: &[i16],
    work: &mut [u8],
    out: &mut [u8],
) -> Written
    ensures { RecordWriting
        (job_of section1.now section2.now
        (record { version = version; flags = flags; step = step; interval = interval; order = order })
        firsts.now counts.now ids.now samples.now)
        work.old out.old result work.new out.new }
{
    scp::scp_write_record(
        section1, section2, version, flags, step, interval, order, firsts, counts, ids, samples,
        work, out,
    )
}

// Adding a record to the auditor's index, of which `used` bytes are in use.
#[unsafe(no_mangle)]
pub extern "C" fn scp_index_add(index: &mut [u8], used: usize, rec: &[u8]) -> Indexed
    ensures answer { result ≡ add_answer index.old used rec.now }
    ensures bytes { index.new ≡ index_after index.old used rec.now }
{
    scp::scp_index_add(index, used, rec)
}

// Merging two indexes, of which all bytes are in use, into the output.
#[unsafe(no_mangle)]
pub extern "C" fn scp_index_merge(a: &[u8], b: &[u8], out: &mut [u8]) -> Indexed
    ensures answer { result ≡ merge_answer a.now b.now (length out.old) }
    ensures bytes { out.new ≡ merged_into a.now b.now out.old }
{
    scp::scp_index_merge(a, b, out)
}

// The entries of an identifier, which comes without its NUL, as a part of the index.
#[unsafe(no_mangle)]
pub extern "C" fn scp_index_find(index: &[u8], used: usize, identifier: &[u8]) -> ScpPart
    ensures { result ≡ part_at (find_place index.now used identifier.now) }
{
    scp::scp_index_find(index, used, identifier)
}

// The entry at a place of the index, which is not judged.
#[unsafe(no_mangle)]
pub extern "C" fn scp_index_step(index: &[u8], at: usize) -> IndexEntry
    ensures { result ≡ entry_at index.now at }
{
    scp::scp_index_step(index, at)
}
