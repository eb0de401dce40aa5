// Opening a record (01, The record): the rules of refusals 1 to 6, and each pointer as stored.
// Every function answers for any bytes; `judge` asks the rules in their order, so that later ones meet only sound bytes.
#![tactic(auto)]

ghost use Rattle.std.specs.Prelude.{◌≡◌, ◌<◌, IfOk};
ghost use Rattle.std.specs.Result.{result_unwrap_or};
ghost use Rattle.refusals.specs.Refusals.{refusal_in};
ghost use Rattle.wire.specs.RuleWords.{all_in};
ghost use Rattle.pointers.specs.Pointers.{count_of};
ghost use Rattle.record.specs.RecordRules.{length_right, record_check_right, letters_right, id_right, own_pointer_right, section0_right, place_right, header_repeats, sections_apart, placed_right, all_placed_right, holds_check, section_check_right, checks_right, fields_right};
ghost use Rattle.record.specs.Opening.{open_refusal, open_count, open_numbers};

use refusals::Refusal;

// 1: the length.
#[tactic(auto, unfolding(crate::specs::RecordRules::length_right))]
pub fn length_right(rec: &[u8]) -> bool
    ensures { result ≡ length_right rec.now }
{
    142 <= rec.len() && rec.len() <= wire::MOST_BYTES && wire::number32(rec, 2) == rec.len()
}

// The first two bytes of a part hold the check of the rest of it.
#[tactic(auto, unfolding(crate::specs::RecordRules::holds_check))]
fn holds_check(rec: &[u8], start: usize, end: usize) -> bool
    requires { start < 4294967296 }
    ensures { result ≡ holds_check rec.now start end }
{
    wire::number16(rec, start) == usize::from(wire::crc(wire::part_of(rec, start + 2, end)))
}

// 2: the record's check.
#[tactic(auto, unfolding(crate::specs::RecordRules::record_check_right))]
pub fn record_check_right(rec: &[u8]) -> bool
    ensures { result ≡ record_check_right rec.now }
{
    holds_check(rec, 0, rec.len())
}

// The letters of Section 0's header.
fn letters_right(rec: &[u8]) -> bool
    ensures { result ≡ letters_right rec.now }
{
    wire::part_of(rec, 16, 22) == b"SCPECG".as_slice()
}

// The ID of pointer k is the one that the rules put there.
#[tactic(auto, unfolding(crate::specs::RecordRules::id_right))]
fn id_right(rec: &[u8], k: u8) -> bool
    ensures { result ≡ id_right rec.now k }
{
    let id = pointers::id_of(rec, k);
    if k < 12 {
        id == usize::from(k)
    } else {
        pointers::id_of(rec, k - 1) < id
    }
}

// The IDs of all pointers are.
fn ids_right(rec: &[u8], count: u8) -> bool
    ensures { result ≡ all_in 0 count (id_right rec.now) }
{
    (0..count).all(|k| id_right(rec, k))
}

// Section 0's own pointer.
#[tactic(auto, unfolding(crate::specs::RecordRules::own_pointer_right))]
fn own_pointer_right(rec: &[u8]) -> bool
    ensures { result ≡ own_pointer_right rec.now }
{
    pointers::length_of(rec, 0) == wire::number32(rec, 10) && pointers::index_of(rec, 0) == 7
}

// 3: Section 0.
#[tactic(auto, unfolding(crate::specs::RecordRules::section0_right))]
pub fn section0_right(rec: &[u8]) -> bool
    ensures { result ≡ section0_right rec.now }
{
    let count = pointers::count_of(rec);
    let size = wire::number32(rec, 10);
    wire::number16(rec, 8) == 0
        && letters_right(rec)
        && 12 <= count
        && size == 16 + 10 * usize::from(count)
        && 6 + size <= rec.len()
        && own_pointer_right(rec)
        && ids_right(rec, count)
}

// The length and place of section k.
#[tactic(auto, unfolding(crate::specs::RecordRules::place_right))]
fn place_right(rec: &[u8], k: u8) -> bool
    ensures { result ≡ place_right rec.now k }
{
    let size = pointers::length_of(rec, k);
    size % 2 == 0
        && 16 <= size
        && 6 + wire::number32(rec, 10) < pointers::index_of(rec, k)
        && pointers::end_of(rec, k) <= rec.len()
}

// The header of section k repeats its pointer.
#[tactic(auto, unfolding(crate::specs::RecordRules::header_repeats))]
fn header_repeats(rec: &[u8], k: u8) -> bool
    ensures { result ≡ header_repeats rec.now k }
{
    let start = pointers::start_of(rec, k);
    wire::number16(rec, start + 2) == pointers::id_of(rec, k)
        && wire::number32(rec, start + 4) == pointers::length_of(rec, k)
}

// Sections k and j do not overlap.
#[tactic(auto, unfolding(crate::specs::RecordRules::sections_apart))]
fn is_apart(rec: &[u8], k: u8, j: u8) -> bool
    ensures { result ≡ sections_apart rec.now k j }
{
    !pointers::is_present(rec, j)
        || pointers::end_of(rec, j) <= pointers::start_of(rec, k)
        || pointers::end_of(rec, k) <= pointers::start_of(rec, j)
}

// Section k overlaps none that the list has before it.
fn all_apart(rec: &[u8], k: u8) -> bool
    ensures { result ≡ all_in 1 k (sections_apart rec.now k) }
{
    (1..k).all(|j| is_apart(rec, k, j))
}

// Section k is absent or placed by the rules.
#[tactic(auto, unfolding(crate::specs::RecordRules::placed_right))]
fn placed_right(rec: &[u8], k: u8) -> bool
    ensures { result ≡ placed_right rec.now k }
{
    !pointers::is_present(rec, k)
        || place_right(rec, k) && header_repeats(rec, k) && all_apart(rec, k)
}

// 4: the places, lengths and headers of all sections behind Section 0.
#[tactic(auto, unfolding(crate::specs::RecordRules::all_placed_right))]
pub fn all_placed_right(rec: &[u8]) -> bool
    ensures { result ≡ all_placed_right rec.now }
{
    pointers::is_present(rec, 1) && (1..pointers::count_of(rec)).all(|k| placed_right(rec, k))
}

// Section k is absent or its check is right.
#[tactic(auto, unfolding(crate::specs::RecordRules::section_check_right))]
fn section_check_right(rec: &[u8], k: u8) -> bool
    ensures { result ≡ section_check_right rec.now k }
{
    !pointers::is_present(rec, k)
        || holds_check(rec, pointers::start_of(rec, k), pointers::end_of(rec, k))
}

// 5: the checks of all sections.
#[tactic(auto, unfolding(crate::specs::RecordRules::checks_right))]
pub fn checks_right(rec: &[u8]) -> bool
    ensures { result ≡ checks_right rec.now }
{
    holds_check(rec, 6, 6 + wire::number32(rec, 10))
        && (1..pointers::count_of(rec)).all(|k| section_check_right(rec, k))
}

// 6: Section 1's data.
#[tactic(auto, unfolding(crate::specs::RecordRules::fields_right))]
pub fn fields_right(rec: &[u8]) -> bool
    ensures { result ≡ fields_right rec.now }
{
    header::section1_right(pointers::section_of(rec, 1), 16, 1)
}

// The smallest of 1 to 6 that applies refuses.
#[tactic(auto, unfolding(crate::specs::Opening::open_refusal))]
pub fn judge(rec: &[u8]) -> Result<(), Refusal>
    ensures { refusal_in result ≡ open_refusal rec.now }
{
    Refusal::Length.unless(length_right(rec))?;
    Refusal::RecordCheck.unless(record_check_right(rec))?;
    Refusal::Section0.unless(section0_right(rec))?;
    Refusal::Placement.unless(all_placed_right(rec))?;
    Refusal::SectionCheck.unless(checks_right(rec))?;
    Refusal::HeaderFields.unless(fields_right(rec))
}

// A record that opens: whoever makes one shows that it does, as `new` does.
#[derive(Clone, Copy)]
pub struct Opened<'a> {
    pub bytes: &'a [u8],
    ghost opens: { open_refusal bytes.now ≡ 0 },
}

impl<'a> Opened<'a> {
    // The record itself, unless it is refused.
    pub fn new(rec: &'a [u8]) -> Result<Self, Refusal>
        ensures number { refusal_in result ≡ open_refusal rec.now }
        ensures itself { IfOk result (λ opened. opened.bytes ≡ rec.entry) }
    {
        judge(rec)?;
        Ok(Opened { bytes: rec })
    }
}

// Opening: each pointer as stored, or the refusal.
#[tactic(auto, unfolding(crate::specs::Opening::open_count, crate::specs::Opening::open_numbers, crate::specs::Opening::opens, pointers::specs::Pointers::pointers_from))]
pub fn open(rec: &[u8], numbers: &mut [u32; 192]) -> Result<u8, Refusal>
    ensures number { refusal_in result ≡ open_refusal rec.now }
    ensures count { result_unwrap_or result 0 ≡ open_count rec.now }
    ensures numbers { numbers.new ≡ open_numbers rec.now numbers.old }
{
    judge(rec)?;
    let count = pointers::count_of(rec);
    pointers::put_pointers(rec, count, numbers);
    Ok(count)
}
