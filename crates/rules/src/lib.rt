// The rules that reading a lead asks of a record before any stream is read (01, Leads and samples; refusals 7 to 10), each alone, and the
// smallest of 1 to 10 that applies. All leads' entries are judged, whatever place is asked for.
#![tactic(auto)]

ghost use Rattle.std.specs.Prelude.{◌≡◌, ◌<◌, ◌≤◌};
ghost use Rattle.refusals.specs.Refusals.{refusal_in};
ghost use Rattle.pointers.specs.Pointers.{section_of};
ghost use Rattle.entries.specs.Sections5And6.{interval_of};
ghost use Rattle.rules.specs.Rows.{row_kept};
ghost use Rattle.rules.specs.LeadRules.{tables_right, lead_count_of, beat_subtracted, beat_sample_count, beat_right, section6_kept, sections3_to6_right, steps_agree, agrees, has_lead, lead_refusal};

use refusals::Refusal;

// 7: Section 2 is absent or keeps its rule.
#[tactic(auto, unfolding(crate::specs::LeadRules::tables_right))]
pub fn tables_right(rec: &[u8]) -> bool
    ensures { result ≡ tables_right rec.now }
{
    !pointers::is_present(rec, 2) || tables::section2_right(pointers::section_of(rec, 2), 16, 1)
}

// How many leads Section 3 says.
pub fn leads_of(rec: &[u8]) -> u8
    ensures { result ≡ lead_count_of rec.now }
{
    entries::lead_count(pointers::section_of(rec, 3))
}

// A reference beat was subtracted.
#[tactic(auto, unfolding(crate::specs::LeadRules::beat_subtracted))]
pub fn has_beat(rec: &[u8]) -> bool
    ensures { result ≡ beat_subtracted rec.now }
{
    pointers::is_present(rec, 3) && entries::flags_of(pointers::section_of(rec, 3)) % 2 == 1
}

// How many samples the beat has.
#[tactic(auto, unfolding(crate::specs::LeadRules::beat_sample_count))]
pub fn beat_sample_count(rec: &[u8]) -> usize
    requires { 0 < interval_of (section_of rec.now 5) }
    ensures { (result ≡ beat_sample_count rec.now) × (result ≤ 65535000) }
{
    let ms = entries::beat_length(pointers::section_of(rec, 4));
    let interval = entries::interval_of(pointers::section_of(rec, 5));
    entries::samples_in_beat(ms, usize::from(interval))
}

// Sections 4 and 5, where a beat was subtracted.
#[tactic(auto, using(entries::proofs::Laws::interval_some), unfolding(crate::specs::LeadRules::beat_right))]
fn beat_right(rec: &[u8]) -> bool
    requires { lead_count_of rec.now ≤ 32 }
    ensures { result ≡ beat_right rec.now }
{
    !has_beat(rec)
        || pointers::is_present(rec, 4)
            && pointers::is_present(rec, 5)
            && entries::streams_right(pointers::section_of(rec, 5), leads_of(rec))
            && entries::section4_right(pointers::section_of(rec, 4), beat_sample_count(rec))
}

// Section 6, if it is present.
#[tactic(auto, unfolding(crate::specs::LeadRules::section6_kept))]
fn rhythm_right(rec: &[u8]) -> bool
    requires { lead_count_of rec.now ≤ 32 }
    ensures { result ≡ section6_kept rec.now }
{
    !pointers::is_present(rec, 6)
        || entries::section6_right(pointers::section_of(rec, 6), leads_of(rec))
}

// 8: Sections 3 to 6 keep their rules.
#[tactic(auto, using(crate::proofs::Laws::few_leads), unfolding(crate::specs::LeadRules::sections3_to6_right))]
pub fn leads_right(rec: &[u8]) -> bool
    ensures { result ≡ sections3_to6_right rec.now }
{
    if !pointers::is_present(rec, 3) {
        return !pointers::is_present(rec, 6);
    }
    entries::section3_right(pointers::section_of(rec, 3)) && beat_right(rec) && rhythm_right(rec)
}

// Steps and intervals of Sections 5 and 6 agree where a beat was subtracted.
#[tactic(auto, unfolding(crate::specs::LeadRules::steps_agree))]
fn steps_agree(rec: &[u8]) -> bool
    ensures { result ≡ steps_agree rec.now }
{
    let beat = pointers::section_of(rec, 5);
    let rhythm = pointers::section_of(rec, 6);
    !has_beat(rec)
        || entries::step_of(beat) == entries::step_of(rhythm)
            && entries::interval_of(beat) == entries::interval_of(rhythm)
}

// 9: bimodal is 0, and steps and intervals agree.
#[tactic(auto, unfolding(crate::specs::LeadRules::agrees))]
pub fn is_agreed(rec: &[u8]) -> bool
    ensures { result ≡ agrees rec.now }
{
    !pointers::is_present(rec, 6)
        || entries::bimodal_of(pointers::section_of(rec, 6)) == 0 && steps_agree(rec)
}

// 10: there is a lead at the place asked for.
#[tactic(auto, unfolding(crate::specs::LeadRules::has_lead))]
pub fn has_lead(rec: &[u8], place: usize) -> bool
    ensures { result ≡ has_lead rec.now place }
{
    pointers::is_present(rec, 3)
        && pointers::is_present(rec, 6)
        && 1 <= place
        && place <= usize::from(leads_of(rec))
}

// The smallest of 1 to 10 that applies.
#[tactic(auto, unfolding(crate::specs::LeadRules::lead_refusal, record::specs::Opening::opens))]
pub fn judge_lead(rec: &[u8], place: usize) -> Result<(), Refusal>
    ensures { refusal_in result ≡ lead_refusal rec.now place }
{
    record::judge(rec)?;
    Refusal::CodeTables.unless(tables_right(rec))?;
    Refusal::LeadSections.unless(leads_right(rec))?;
    Refusal::Disagreement.unless(is_agreed(rec))?;
    Refusal::NotFound.unless(has_lead(rec, place))
}

// The rule of a row from 1 to 9 is kept, asked alone.
#[tactic(auto, unfolding(crate::specs::Rows::row_kept))]
pub fn row_kept(rec: &[u8], row: u8) -> bool
    ensures { result ≡ row_kept rec.now row }
{
    match row {
        1 => record::length_right(rec),
        2 => record::record_check_right(rec),
        3 => record::section0_right(rec),
        4 => record::all_placed_right(rec),
        5 => record::checks_right(rec),
        6 => record::fields_right(rec),
        7 => tables_right(rec),
        8 => leads_right(rec),
        9 => is_agreed(rec),
        _ => true,
    }
}
