// A walk over the header fields of a record (01, Header fields and the patient identifier; 01, The forms we expect): a small struct
// that holds Section 1 as a part of the lent record itself, and a place in it. It is an iterator: a step shows what is there, and goes
// past it.
#![tactic(auto)]

ghost use Rattle.std.specs.Prelude.{◌≡◌, ◌+◌, IfOk};
ghost use Rattle.std.specs.Iterator.{item_count};
ghost use Rattle.refusals.specs.Refusals.{refusal_in};
ghost use Rattle.pointers.specs.Pointers.{data_at};
ghost use Rattle.fields.specs.Lookup.{walk_place, refusal_of, part_start, part_bytes};
ghost use Rattle.walker.specs.Walk.{Steps, left};

use refusals::Refusal;

// Section 1 whole, its header with it, and the place of the next step.
#[derive(Clone, Copy)]
pub struct Walker<'a> {
    pub section: &'a [u8],
    pub at: usize,
}

// What a step shows: a field's bytes, a part of the section itself, and its tag.
#[derive(Clone, Copy)]
pub struct Shown<'a> {
    pub bytes: &'a [u8],
    pub tag: u8,
}

// A walk starts at the first field of Section 1. It is refused as opening is.
#[tactic(auto, using(crate::proofs::Laws::place_inside))]
pub fn start(rec: &[u8]) -> Result<Walker<'_>, Refusal>
    ensures number { refusal_in result ≡ refusal_of (walk_place rec.now) }
    ensures section { IfOk result (λ w. w.section.now ≡ part_bytes rec.now (walk_place rec.now)) }
    ensures itself { IfOk result (λ w. (w.section.ref_ptr.0 ≡ rec.entry.ref_ptr.0)
        × (w.section.ref_ptr.1 ≡ part_start (walk_place rec.now) + rec.entry.ref_ptr.1)) }
    ensures place { IfOk result (λ w. w.at ≡ data_at) }
{
    let section = fields::walk_place(rec)?.of(rec);
    Ok(Walker { section, at: 16 })
}

impl<'a> Iterator for Walker<'a> {
    type Item = Shown<'a>;

    ghost next_gives = { Steps };

    ghost remaining = { item_count left };

    // Shows the field at the walker's place, and goes behind it; at the end it stays.
    #[tactic(auto, using(header::proofs::Laws::step_found, header::proofs::Laws::fields_step))]
    fn next(&mut self) -> Option<Shown<'a>> {
        let f = header::step_at(self.section, self.at)?;
        self.at = f.end;
        Some(Shown {
            bytes: &self.section[f.start..f.end],
            tag: f.tag,
        })
    }
}
