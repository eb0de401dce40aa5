// Section 1's data: the walk over its fields, a field by tag and occurrence, and the rule that the data keep
// (01, Header fields and the patient identifier; refusal 6). Every place and number is answered.
#![tactic(auto)]

ghost use Rattle.std.specs.Prelude.{◌≡◌, not, eqb};
ghost use Rattle.wire.specs.Numbers.{byte_at};
ghost use Rattle.wire.specs.RuleWords.{all_in};
ghost use Rattle.header.specs.Fields.{step_at, fields_from, fields_end, with_tag, occurring, size_of};
ghost use Rattle.header.specs.Header.{ends_at, sole, is_identifier, section1_right};

// A field: its tag, and its bytes from `start` up to `end` of the list that was walked.
#[derive(Clone, Copy)]
pub struct Field {
    pub tag: u8,
    pub start: usize,
    pub end: usize,
}

impl Field {
    // How many bytes the field has.
    pub fn size(self) -> usize
        ensures { result ≡ size_of self }
    {
        self.end.saturating_sub(self.start)
    }
}

// A step of the walk: the field at a place, or the end. Two comparisons of the length, since the compiler learns from them that the bytes
// are there, and from a difference that stops at 0 it does not: a walk then takes half as long again.
#[tactic(auto, unfolding(crate::specs::Fields::step_at, crate::specs::Fields::is_field, crate::specs::Fields::field_at))]
pub fn step_at(s: &[u8], at: usize) -> Option<Field>
    ensures { result ≡ step_at s.now at }
{
    if s.len() <= at || s.len() - at < 3 || s[at] == 255 {
        return None;
    }
    let start = at + 3;
    let end = start + wire::number16(s, at + 1);
    if s.len() < end {
        return None;
    }
    Some(Field {
        tag: s[at],
        start,
        end,
    })
}

// The next field with a tag, from a place on.
#[tactic(auto, using(crate::proofs::Laws::steps))]
pub fn next_named(s: &[u8], at: usize, tag: u8) -> Option<Field>
    ensures { result ≡ occurring 1 (with_tag tag (fields_from s.now at)) }
{
    let mut from = at;
    while let Some(f) = step_at(s, from) {
        if f.tag == tag {
            return Some(f);
        }
        from = f.end;
    }
    None
}

// The field with a tag that is asked for by its occurrence, counted from 1.
#[tactic(auto, using(crate::proofs::Laws::firsts), unfolding(crate::specs::Fields::occurring))]
pub fn find(s: &[u8], at: usize, tag: u8, occurrence: usize) -> Option<Field>
    ensures { result ≡ occurring occurrence (with_tag tag (fields_from s.now at)) }
{
    if occurrence == 0 {
        return None;
    }
    let mut from = at;
    for _passed in 1..occurrence {
        from = next_named(s, from, tag)?.end;
    }
    next_named(s, from, tag)
}

// Where the fields from a place on end.
#[tactic(auto, using(crate::proofs::Laws::steps))]
fn walk_end(s: &[u8], at: usize) -> usize
    ensures { result ≡ fields_end at (fields_from s.now at) }
{
    let mut end = at;
    while let Some(f) = step_at(s, end) {
        end = f.end;
    }
    end
}

// The field with a tag, if the tag occurs exactly once.
#[tactic(auto, using(crate::proofs::Laws::firsts), unfolding(crate::specs::Header::sole, crate::specs::Fields::occurring))]
fn sole_named(s: &[u8], at: usize, tag: u8) -> Option<Field>
    ensures { result ≡ sole (with_tag tag (fields_from s.now at)) }
{
    let first = next_named(s, at, tag)?;
    next_named(s, first.end, tag).is_none().then_some(first)
}

// The end mark is at a place, with at most `spare` bytes after it.
#[tactic(auto, unfolding(crate::specs::Header::ends_at, wire::specs::RuleWords::ends_by))]
fn ends_at(s: &[u8], at: usize, spare: usize) -> bool
    ensures { result ≡ ends_at spare s.now at }
{
    at < s.len()
        && wire::byte(s, at) == 255
        && wire::number16(s, at + 1) == 0
        && 3 <= s.len() - at
        && s.len() - at - 3 <= spare
}

// No byte from one place up to another is NUL. A byte that is not there counts as NUL.
pub fn no_nul(s: &[u8], from: usize, to: usize) -> bool
    ensures { result ≡ all_in from to (λ i. not (eqb (byte_at s.now i) 0)) }
{
    to <= from || to <= s.len() && !s[from..to].contains(&0)
}

// The patient identifier has 2 to 64 bytes, of which the last is NUL and no other.
#[tactic(auto, unfolding(crate::specs::Header::is_identifier))]
fn is_identifier(s: &[u8], f: Field) -> bool
    ensures { result ≡ is_identifier s.now f }
{
    let size = f.size();
    2 <= size && size <= 64 && wire::byte(s, f.end - 1) == 0 && no_nul(s, f.start, f.end - 1)
}

// The data keep their rule: refusal 6 is not due. At most `spare` bytes follow the end mark.
#[tactic(auto, unfolding(crate::specs::Header::section1_right, crate::specs::Header::tags_right, crate::specs::Header::has_size))]
pub fn section1_right(s: &[u8], at: usize, spare: usize) -> bool
    ensures { result ≡ section1_right spare s.now at }
{
    ends_at(s, walk_end(s, at), spare)
        && sole_named(s, at, 2).is_some_and(|f| is_identifier(s, f))
        && sole_named(s, at, 14).is_some()
        && sole_named(s, at, 25).is_some_and(|f| f.size() == 4)
        && sole_named(s, at, 26).is_some_and(|f| f.size() == 3)
}
