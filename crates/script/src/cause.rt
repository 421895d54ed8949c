// Why a call is refused, by name, and the paper's number of each cause. Stops are told by their reasons.
ghost use Rattle.std.specs.Prelude.{◌≡◌};
ghost use Rattle.lambdamix.specs.Refusal.{refused_at, refused_unless};
ghost use Rattle.script.specs.Causes.{cause_number, refused_by};
ghost use Rattle.script.specs.Verdicts.{found_at, refusal_of};

use crate::Refusal;

#[derive(Clone, Copy, PartialEq, Eq)]
pub enum Cause {
    WrongLength,
    WrongMark,
    WrongCount,
    BadRecord,
    BadNode,
    NotUsedOnce,
    TreeTooHigh,
    UnboundVariable,
    NodeAtFault,
    TypeNotListed,
    RootNotLate,
    WrongSettings,
    TooMuchFuel,
    StoreTooShort,
    OutputTooShort,
    CodeTooLarge,
    BadRow,
    Overlap,
    Gap,
}

impl Cause {
    // The paper's number.
    pub fn number(self) -> u8
        ensures { result ≡ cause_number self }
    {
        match self {
            Cause::WrongLength => 1,
            Cause::WrongMark => 2,
            Cause::WrongCount => 3,
            Cause::BadRecord => 4,
            Cause::BadNode => 5,
            Cause::NotUsedOnce => 6,
            Cause::TreeTooHigh => 7,
            Cause::UnboundVariable => 8,
            Cause::NodeAtFault => 9,
            Cause::TypeNotListed => 10,
            Cause::RootNotLate => 11,
            Cause::WrongSettings => 12,
            Cause::TooMuchFuel => 13,
            Cause::StoreTooShort => 20,
            Cause::OutputTooShort => 21,
            Cause::CodeTooLarge => 26,
            Cause::BadRow => 30,
            Cause::Overlap => 31,
            Cause::Gap => 32,
        }
    }

    // The refusal at a place.
    pub fn at(self, place: usize) -> Refusal
        ensures { result ≡ refused_by self place }
    {
        Refusal {
            number: self.number(),
            place,
        }
    }

    // Refused at a place unless something holds.
    #[tactic(auto, unfolding(crate::specs::Verdicts::refusal_of, lambdamix::specs::Refusal::refused_unless))]
    pub fn unless(self, holds: bool, place: usize) -> Result<(), Refusal>
        ensures { refusal_of result ≡ refused_unless holds (cause_number self) place }
    {
        if holds { Ok(()) } else { Err(self.at(place)) }
    }

    // Refused at the first place that fails, if one does.
    #[tactic(auto, unfolding(crate::specs::Verdicts::refusal_of, crate::specs::Verdicts::found_at, lambdamix::specs::Refusal::refused_at))]
    pub fn at_first(self, failing: Option<usize>) -> Result<(), Refusal>
        ensures { refusal_of result ≡ refused_at (cause_number self) (found_at failing) }
    {
        match failing {
            None => Ok(()),
            Some(place) => Err(self.at(place)),
        }
    }
}
