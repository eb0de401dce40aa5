// Header fields of a record (01, Header fields and the patient identifier): a field by tag and occurrence as a part of the lent record
// itself (refusals 1 to 6 and 10), the start of a walk, and whether two identifiers are the same.
#![tactic(auto)]

ghost use Rattle.std.specs.Prelude.{◌≡◌, ◌+◌, ◌≤◌, length, IfOk};
ghost use Rattle.refusals.specs.Refusals.{refusal_in, numbered};
ghost use Rattle.wire.specs.Numbers.{part};
ghost use Rattle.record.specs.Opening.{open_refusal};
ghost use Rattle.fields.specs.Lookup.{field_place, walk_place, refusal_of, part_start, part_bytes};
ghost use Rattle.fields.specs.Identifier.{same};
ghost use Rattle.fields.specs.Recording.{field_of, identifier_of};

use record::Opened;
use refusals::Refusal;

// A part of what is lent: its first place, and how many bytes it has.
#[derive(Clone, Copy)]
pub struct Part {
    pub start: usize,
    pub size: usize,
}

impl Part {
    // The bytes of the part: that part of `s` itself.
    pub fn of(self, s: &[u8]) -> &[u8]
        requires { self.start + self.size ≤ length s.now }
        ensures bytes { result.now ≡ part s.now self.start (self.start + self.size) }
        ensures itself { (result.ref_ptr.0 ≡ s.entry.ref_ptr.0)
            × (result.ref_ptr.1 ≡ self.start + s.entry.ref_ptr.1) }
    {
        &s[self.start..self.start + self.size]
    }
}

// Where a field is in a record that opens.
#[tactic(auto, using(crate::proofs::Laws::places), unfolding(crate::specs::Lookup::field_place, record::specs::Opening::opens))]
fn opened_place(rec: Opened, tag: u8, occurrence: usize) -> Result<Part, Refusal>
    ensures { numbered result ≡ field_place rec.entry.bytes.now tag occurrence }
{
    let section = pointers::section_of(rec.bytes, 1);
    let f = header::find(section, 16, tag, occurrence).ok_or(Refusal::NotFound)?;
    Ok(Part {
        start: pointers::start_of(rec.bytes, 1) + f.start,
        size: f.size(),
    })
}

// Where a field is in the record.
#[tactic(auto, unfolding(crate::specs::Lookup::field_place, record::specs::Opening::opens))]
pub fn field_place(rec: &[u8], tag: u8, occurrence: usize) -> Result<Part, Refusal>
    ensures { numbered result ≡ field_place rec.now tag occurrence }
{
    opened_place(Opened::new(rec)?, tag, occurrence)
}

// The bytes of the first field with a tag, of a record that opens: that part of the record itself, empty where there is none. Here and
// below the record is lent as it is, and not as `Opened`: programs in Rattle call this crate, and a type that says more would ask more.
#[tactic(auto, using(crate::proofs::Laws::places), unfolding(crate::specs::Recording::field_of))]
pub fn field_of<'a>(rec: &'a [u8], tag: u8) -> &'a [u8]
    requires { open_refusal rec.now ≡ 0 }
    ensures { result.now ≡ field_of rec.now tag }
{
    match opened_place(Opened { bytes: rec }, tag, 1) {
        Ok(place) => place.of(rec),
        Err(_) => &rec[..0],
    }
}

// The patient identifier without its NUL, of a record that opens.
#[tactic(auto, unfolding(crate::specs::Recording::identifier_of))]
pub fn identifier_of<'a>(rec: &'a [u8]) -> &'a [u8]
    requires { open_refusal rec.now ≡ 0 }
    ensures { result.now ≡ identifier_of rec.now }
{
    let bytes = field_of(rec, 2);
    &bytes[..bytes.len().saturating_sub(1)]
}

// A field's bytes: that part of the record itself.
#[tactic(auto, using(crate::proofs::Laws::places))]
pub fn field(rec: &[u8], tag: u8, occurrence: usize) -> Result<&[u8], Refusal>
    ensures number { refusal_in result ≡ refusal_of (field_place rec.now tag occurrence) }
    ensures bytes { IfOk result (λ b. b.now ≡ part_bytes rec.now (field_place rec.now tag occurrence)) }
    ensures itself { IfOk result (λ b. (b.ref_ptr.0 ≡ rec.entry.ref_ptr.0)
        × (b.ref_ptr.1 ≡ part_start (field_place rec.now tag occurrence) + rec.entry.ref_ptr.1)) }
{
    Ok(field_place(rec, tag, occurrence)?.of(rec))
}

// Where a walk over the fields goes: Section 1, its header with it.
#[tactic(auto, unfolding(crate::specs::Lookup::walk_place, record::specs::Opening::opens))]
pub fn walk_place(rec: &[u8]) -> Result<Part, Refusal>
    ensures { numbered result ≡ walk_place rec.now }
{
    record::judge(rec)?;
    Ok(Part {
        start: pointers::start_of(rec, 1),
        size: pointers::length_of(rec, 1),
    })
}

// Two identifiers are the same exactly if their bytes are equal.
#[tactic(auto, using(crate::proofs::Laws::same_bytes))]
pub fn same_identifier(a: &[u8], b: &[u8]) -> bool
    ensures { result ≡ same a.now b.now }
{
    a == b
}
