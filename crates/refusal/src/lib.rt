// Every refusal in words, and its number: 1 to 17 are document 01's, 18, 19 and 21 are document 02's, and 28 to 30 are the library's own.
#![tactic(auto)]

ghost use Rattle.std.specs.Prelude.{◌≡◌};
ghost use Rattle.refusal.specs.Refusal.{number, verdict_number};

#[derive(Clone, Copy, Debug, PartialEq, Eq)]
pub enum Refusal {
    LengthsDiffer,
    MonotonicityOutside,
    QuadraticityOutside,
    TooFewPoints,
    KnotNotFinite,
    AverageNotFinite,
    KnotsNotRising,
    SeamTooLong,
    NoPreviousCurve,
    TooManyPoints,
    BufferTooShort,
    QueryNotANumber,
    QueryOutside,
    DerivativeAsked,
    RecordNotLegal,
    NoGivenNode,
    OrderMalformed,
    StripEndsNotRising,
    MonthsNotPeriods,
    NotFinite,
    CutsNotInner,
    AverageBelowZero,
    SplitUnknown,
}

impl Refusal {
    pub fn number(self) -> u8
        ensures { result ≡ number self }
    {
        match self {
            Refusal::LengthsDiffer => 1,
            Refusal::MonotonicityOutside => 2,
            Refusal::QuadraticityOutside => 3,
            Refusal::TooFewPoints => 4,
            Refusal::KnotNotFinite => 5,
            Refusal::AverageNotFinite => 6,
            Refusal::KnotsNotRising => 7,
            Refusal::SeamTooLong => 8,
            Refusal::NoPreviousCurve => 9,
            Refusal::TooManyPoints => 10,
            Refusal::BufferTooShort => 11,
            Refusal::QueryNotANumber => 12,
            Refusal::QueryOutside => 13,
            Refusal::DerivativeAsked => 14,
            Refusal::RecordNotLegal => 15,
            Refusal::NoGivenNode => 16,
            Refusal::OrderMalformed => 17,
            Refusal::StripEndsNotRising => 18,
            Refusal::MonthsNotPeriods => 19,
            Refusal::NotFinite => 21,
            Refusal::CutsNotInner => 28,
            Refusal::AverageBelowZero => 29,
            Refusal::SplitUnknown => 30,
        }
    }
}

// The number of what a check says of an input: the refusal's, or 0.
pub fn verdict_number(verdict: Result<(), Refusal>) -> u8
    ensures { result ≡ verdict_number verdict }
{
    match verdict {
        Ok(()) => 0,
        Err(refusal) => refusal.number(),
    }
}
