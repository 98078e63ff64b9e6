// Whether a record has a part whose split is unusual, by its tag and the few slots that tell it. All that is asked is joined without a branch.
ghost use Rattle.std.specs.Prelude.{◌≡◌};
ghost use Rattle.numbers.specs.Words.{ordinary_ratio};
ghost use Rattle.record.specs.Unusual.{unusual_split};

use crate::tag::{is_other_split, is_quadratic_split};
use numbers::FIELDS;

// 2 ^ -60 and 2 ^ 60.
const LEAST_RATIO: f64 = 8.673617379884035e-19;

const MOST_RATIO: f64 = 1.152921504606847e18;

fn is_ordinary(ratio: f64) -> bool
    ensures { result ≡ ordinary_ratio ratio }
{
    (LEAST_RATIO <= ratio) & (ratio <= MOST_RATIO)
}

// Whether a part is split, but x does not lie before its zero stretch, or its ratio is not of ordinary size. Slots that are no section's have no split.
#[tactic(auto, unfolding(crate::specs::Unusual::unusual_split))]
pub fn is_unusual(tag: u16, slots: &[f64], x: f64) -> bool
    ensures { result ≡ unusual_split tag slots.now x }
{
    if slots.len() < FIELDS {
        return false;
    }
    let quadratic = (x < slots[2]) & is_ordinary(slots[12]);
    let other = (x <= slots[22]) & is_ordinary(slots[21]);
    (is_quadratic_split(tag) & !quadratic) | (is_other_split(tag) & !other)
}
