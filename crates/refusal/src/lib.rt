// A refusal: which of document 01's reasons, and where.
#![tactic(auto)]

ghost use Rattle.std.specs.Prelude.{◌≡◌};
ghost use Rattle.refusal.specs.Told.{number_of};

// Document 01's reasons, in the order of its numbers, which begin with 1.
#[derive(Clone, Copy, Debug, PartialEq, Eq)]
pub enum Reason {
    SheetTooLong,
    WorkspaceTooShort,
    Misfit,
    BadName,
    TooMuch,
    Undeclared,
    NoDeclaration,
    SecondRule,
    TooFewTerms,
    TooManyFactors,
    TooManySets,
    BufferTooShort,
    NamedThroughItself,
    NoType,
    Malformed,
    NoSupertype,
    NoNumber,
}

impl From<Reason> for u8 {
    ghost from_gives = { λ reason n. n ≡ number_of reason };

    fn from(reason: Reason) -> u8 {
        match reason {
            Reason::SheetTooLong => 1,
            Reason::WorkspaceTooShort => 2,
            Reason::Misfit => 3,
            Reason::BadName => 4,
            Reason::TooMuch => 5,
            Reason::Undeclared => 6,
            Reason::NoDeclaration => 7,
            Reason::SecondRule => 8,
            Reason::TooFewTerms => 9,
            Reason::TooManyFactors => 10,
            Reason::TooManySets => 11,
            Reason::BufferTooShort => 12,
            Reason::NamedThroughItself => 13,
            Reason::NoType => 14,
            Reason::Malformed => 15,
            Reason::NoSupertype => 16,
            Reason::NoNumber => 17,
        }
    }
}

#[derive(Clone, Copy, Debug, PartialEq, Eq)]
pub struct Refusal {
    pub reason: Reason,
    pub place: usize,
}

impl Refusal {
    // A refusal that names a place.
    pub fn at(reason: Reason, place: usize) -> Self
        ensures { result ≡ record { reason = reason; place = place } }
    {
        Self { reason, place }
    }
}

// A refusal without a place, which is place 0.
impl From<Reason> for Refusal {
    ghost from_gives = { λ reason r. r ≡ record { reason = reason; place = 0 } };

    fn from(reason: Reason) -> Refusal {
        Refusal::at(reason, 0)
    }
}
