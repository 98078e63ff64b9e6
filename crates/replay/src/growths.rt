// A line `g POSITIVITY Q M LOCALISATION FINAL N KNOTS.. N AVERAGES..`: a table, grown into a curve from the one made last, if there is one.
use crate::kept;
use crate::kept::{Buffers, Kept};
use crate::points::Points;
use column::building::grow_with_column;
use curve::curve::Curve;

// A refused curve leaves none to grow from.
fn previous_of(last: &Option<Kept>) -> Option<Curve> {
    match last {
        Some(
            Kept {
                outcome: Ok(made),
                ..
            },
        ) => Some(*made),
        _ => None,
    }
}

// What a line's words grow into, or nothing where they are not a table.
pub(crate) fn of_words(words: &[u64], last: &Option<Kept>) -> Option<Kept> {
    let [positivity, q, m, localisation, final_size, lists @ ..] = words else {
        return None;
    };
    let method = kept::method(*positivity, *q, *m)?;
    let (Points { knots, averages }, []) = Points::first_of(lists)? else {
        return None;
    };
    let before = match last {
        Some(kept) => kept.lent,
        None => Buffers::new(),
    };
    let mut lent = Buffers::new();
    let answer = grow_with_column(
        knots.as_slice(),
        averages.as_slice(),
        method,
        *localisation as usize,
        *final_size as usize,
        previous_of(last),
        &before.tags,
        &before.slots,
        &mut lent.nodes,
        &mut lent.tags,
        &mut lent.slots,
        &mut lent.column,
    );
    Some(Kept {
        outcome: kept::outcome_of(answer),
        grown: true,
        knots,
        lent,
    })
}
