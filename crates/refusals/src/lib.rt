// The refusals of document 01, as document 02 adds to them: a case for each number, in the order of the numbers. What is refused is an Err with one of them.
#![tactic(auto)]

ghost use Rattle.std.specs.Prelude.{◌≡◌};
ghost use Rattle.refusals.specs.Refusals.{refusal_number};

use std::error::Error;
use std::fmt;

// Why a text, a step, a reading or a choice is refused.
#[derive(Clone, Copy, Debug, PartialEq, Eq)]
pub enum Refusal {
    Lines, // 1: a line is no number, or numbers are missing or left over
    Counts, // 2: a section's count is out of its limits
    Numbers, // 3: a number is out of its limits
    Radii, // 4: the radii of the columns
    Screen, // 5: the screened layers, or the intake
    Coefficients, // 6: a C or an S is out of its limits
    RateOrLength, // 7: the rate or the length of a step
    Unstable, // 8: a step longer than some place allows
    Totals, // 9: the pumped total or the time would pass its limit
    PastIntake, // 10: the well would be drawn below its intake
    PastBottom, // 11: a cell of layer 1 would be drawn below the layer's bottom
    NoSuch, // 12: no such entry, place, face or screened layer
    LentLength, // 13: the length of what is lent
    Record, // 14: the record is none that a run leaves
    Choice, // 20: the list of a choice, or its number of steps
}

impl Refusal {
    // Its number in document 01 or 02.
    #[tactic(auto, unfolding(crate::specs::Refusals::refusal_number))]
    pub fn number(self) -> u64
        ensures { result ≡ refusal_number self }
    {
        match self {
            Refusal::Lines => 1,
            Refusal::Counts => 2,
            Refusal::Numbers => 3,
            Refusal::Radii => 4,
            Refusal::Screen => 5,
            Refusal::Coefficients => 6,
            Refusal::RateOrLength => 7,
            Refusal::Unstable => 8,
            Refusal::Totals => 9,
            Refusal::PastIntake => 10,
            Refusal::PastBottom => 11,
            Refusal::NoSuch => 12,
            Refusal::LentLength => 13,
            Refusal::Record => 14,
            Refusal::Choice => 20,
        }
    }
}

impl fmt::Display for Refusal {
    fn fmt<W: fmt::Write>(&self, f: &mut fmt::Formatter<W>) -> fmt::Result {
        write!(f, "refusal {}", self.number())
    }
}

impl Error for Refusal {}
