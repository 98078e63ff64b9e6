// How a value, a primitive or a strip of ours is held against the original's: by its bits where the original's is finite, and else by the mark, which
// must say that ours is not finite either.
use numbers::Marked;
use query::answer::AnswerInNumbers;
use refusal::Refusal;

// Whether a number that a line tells is finite.
fn is_finite(number: u64) -> bool {
    numbers::is_finite(numbers::of_bits(number))
}

// Of one number that a line tells, how many are compared by the mark alone.
pub(crate) fn by_mark(number: u64) -> u64 {
    u64::from(!is_finite(number))
}

// Whether a number of ours is as a line tells. The mark is asked both ways: one that says too little is as wrong as one that says too much.
pub(crate) fn agrees(ours: Marked, number: u64) -> bool {
    ours.finite == is_finite(number) && (!ours.finite || numbers::to_bits(ours.number) == number)
}

// What a line tells of a query: a refusal, or 0, and a number, which is 0 beside a refusal. A number that is not finite is told as it is, and ours is then
// marked, and refused in numbers.
#[derive(Clone, Copy)]
pub(crate) struct Told {
    pub refusal: u64,
    pub number: u64,
}

impl Told {
    // The refusal that is to be answered in numbers, or 0.
    pub(crate) fn refusal_in_numbers(self) -> u64 {
        if self.refusal == 0 && !is_finite(self.number) {
            return u64::from(Refusal::NotFinite.number());
        }
        self.refusal
    }

    // Whether an answer in numbers is as it is to be. No number stands beside a refusal.
    fn agrees_in_numbers(self, asked: AnswerInNumbers) -> bool {
        let refusal = self.refusal_in_numbers();
        let number = if refusal == 0 { self.number } else { 0 };
        u64::from(asked.refusal) == refusal && numbers::to_bits(asked.answer) == number
    }

    // Whether an answer is as told.
    pub(crate) fn agrees(self, asked: Result<Marked, Refusal>) -> bool {
        if !self.agrees_in_numbers(AnswerInNumbers::from(asked)) {
            return false;
        }
        match asked {
            Ok(ours) => self.refusal == 0 && agrees(ours, self.number),
            Err(r) => u64::from(r.number()) == self.refusal && self.number == 0,
        }
    }
}

// Whether these are the numbers that have these bits.
pub(crate) fn same_bits(floats: &[f64], words: &[u64]) -> bool {
    floats.len() == words.len()
        && floats
            .iter()
            .zip(words)
            .all(|(x, w)| numbers::to_bits(*x) == *w)
}
