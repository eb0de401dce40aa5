// The refusals, each with its number (01, Refusal numbers).
#![tactic(auto)]

ghost use Rattle.std.specs.Prelude.{◌≡◌, cond};
ghost use Rattle.refusals.specs.Refusals.{number_of, refusal_in};

use std::fmt;

// Why a call refuses, in the order of the table.
#[derive(Clone, Copy, Debug, PartialEq, Eq)]
pub enum Refusal {
    Length,
    RecordCheck,
    Section0,
    Placement,
    SectionCheck,
    HeaderFields,
    CodeTables,
    LeadSections,
    Disagreement,
    NotFound,
    Room,
    NoValue,
    OutOfRange,
    LeftOver,
    NoCode,
    TooLong,
    Request,
    Date,
    Index,
}

impl Refusal {
    // The number of the table of refusals.
    pub fn number(self) -> u8
        ensures { result ≡ number_of self }
    {
        match self {
            Refusal::Length => 1,
            Refusal::RecordCheck => 2,
            Refusal::Section0 => 3,
            Refusal::Placement => 4,
            Refusal::SectionCheck => 5,
            Refusal::HeaderFields => 6,
            Refusal::CodeTables => 7,
            Refusal::LeadSections => 8,
            Refusal::Disagreement => 9,
            Refusal::NotFound => 10,
            Refusal::Room => 11,
            Refusal::NoValue => 12,
            Refusal::OutOfRange => 13,
            Refusal::LeftOver => 14,
            Refusal::NoCode => 15,
            Refusal::TooLong => 16,
            Refusal::Request => 17,
            Refusal::Date => 24,
            Refusal::Index => 26,
        }
    }

    // A rule is kept, or the call refuses.
    pub fn unless(self, kept: bool) -> Result<(), Refusal>
        ensures { refusal_in result ≡ cond kept 0 (number_of self) }
    {
        if kept { Ok(()) } else { Err(self) }
    }
}

impl From<Refusal> for u8 {
    ghost from_gives = { λ r n. n ≡ number_of r };

    fn from(refusal: Refusal) -> u8 {
        refusal.number()
    }
}

impl fmt::Display for Refusal {
    fn fmt<W: fmt::Write>(&self, f: &mut fmt::Formatter<W>) -> fmt::Result {
        let number = self.number();
        write!(f, "refused, {number}")
    }
}
