// What the last line of a table came to, with all that the library was lent for it and has written.
use crate::points::{List, POINTS};
use curve::curve::Curve;
use numbers::SLOTS;
use refusal::Refusal;
use table::method::ConvexMonotone;

// The tags and slots that the curve of the most points fills: a buffer of so many is never refused for its length.
pub(crate) const TAGS: usize = 31;

const ROOM: usize = TAGS * SLOTS;

// What the library is lent. It starts as zeros.
#[derive(Clone, Copy)]
pub(crate) struct Buffers {
    pub nodes: [f64; POINTS],
    pub tags: [u16; TAGS],
    pub slots: [f64; ROOM],
    pub column: [f64; POINTS],
}

impl Buffers {
    pub(crate) fn new() -> Self {
        Self {
            nodes: [0.0; POINTS],
            tags: [0; TAGS],
            slots: [0.0; ROOM],
            column: [0.0; POINTS],
        }
    }
}

// A curve, or the number of the refusal.
pub(crate) type Outcome = Result<Curve, u64>;

#[derive(Clone, Copy)]
pub(crate) struct Kept {
    pub outcome: Outcome,
    pub grown: bool,
    pub knots: List,
    pub lent: Buffers,
}

pub(crate) fn outcome_of(answer: Result<Curve, Refusal>) -> Outcome {
    match answer {
        Err(refusal) => Err(u64::from(refusal.number())),
        Ok(made) => Ok(made),
    }
}

// The settings of a line, of which the first word is 0 or 1, or nothing.
pub(crate) fn method(positivity: u64, q: u64, m: u64) -> Option<ConvexMonotone> {
    Some(ConvexMonotone::new(numbers::of_bits(q), numbers::of_bits(m), flag(positivity)?))
}

// A word that says yes or no.
pub(crate) fn flag(word: u64) -> Option<bool> {
    match word {
        0 => Some(false),
        1 => Some(true),
        _ => None,
    }
}
