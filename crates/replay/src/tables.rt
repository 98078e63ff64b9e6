// A line `c POSITIVITY HOLD Q M N KNOTS.. N AVERAGES..` and, for a seam, `COUNT FNEXT`: a table, built into a curve.
use crate::kept;
use crate::kept::{Buffers, Kept};
use crate::points::Points;
use column::building::build_with_column;
use table::ends::Seam;
use table::method::ConvexMonotone;

// A line's table, and what is asked of it.
#[derive(Clone, Copy)]
pub(crate) struct Table {
    pub method: ConvexMonotone,
    pub hold: bool,
    pub points: Points,
    pub seam: Option<Seam>,
}

impl Table {
    // What is behind the averages is nothing, or a seam.
    pub(crate) fn of_words(words: &[u64]) -> Option<Self> {
        let [positivity, hold, q, m, lists @ ..] = words else {
            return None;
        };
        let method = kept::method(*positivity, *q, *m)?;
        let hold = kept::flag(*hold)?;
        let (points, behind) = Points::first_of(lists)?;
        let seam = match behind {
            [] => None,
            [count, node] => Some(Seam {
                count: *count as usize,
                node: numbers::of_bits(*node),
            }),
            _ => return None,
        };
        Some(Self {
            method,
            hold,
            points,
            seam,
        })
    }

    // The curve that the table builds, with its column.
    pub(crate) fn built(&self) -> Kept {
        let Points { knots, averages } = self.points;
        let mut lent = Buffers::new();
        let answer = build_with_column(
            knots.as_slice(),
            averages.as_slice(),
            self.method,
            self.hold,
            self.seam,
            &mut lent.nodes,
            &mut lent.tags,
            &mut lent.slots,
            &mut lent.column,
        );
        Kept {
            outcome: kept::outcome_of(answer),
            grown: false,
            knots,
            lent,
        }
    }
}
