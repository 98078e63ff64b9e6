// Average prices of strips between two knots of a curve that was built with a column, and the total up to one knot.
ghost use Rattle.std.specs.Prelude.{◌≡◌};
ghost use Rattle.numbers.specs.OneOutcome.{pair};
ghost use Rattle.export_strip.specs.Places.{between_into, entry_into};

use crate::asking::write_answer;
use column::between::strip_between;
use column::entry::entry;
use query::answer::AnswerInNumbers;

// The average price from knot `i` to knot `j`, both counted from 0, into the first entry of `answer`: by two entries of the curve's column.
pub fn havgrunel_strip_between(
    knots: &[f64],
    column: &[f64],
    i: usize,
    j: usize,
    answer: &mut [f64],
) -> u8
    ensures { pair result answer.new ≡ between_into knots.now column.now i j answer.old }
{
    if answer.len() < 1 {
        let none: [f64; 0] = [];
        return AnswerInNumbers::from(strip_between(knots, &none, i, j)).refusal;
    }
    write_answer(strip_between(knots, column, i, j), answer)
}

// The total up to knot `i`, counted from 0, into the first entry of `answer`: entry `i` of the curve's column, where it is finite.
pub fn havgrunel_column_entry(column: &[f64], i: usize, answer: &mut [f64]) -> u8
    ensures { pair result answer.new ≡ entry_into column.now i answer.old }
{
    if answer.len() == 0 {
        let none: [f64; 0] = [];
        return AnswerInNumbers::from(entry(&none, i)).refusal;
    }
    write_answer(entry(column, i), answer)
}
