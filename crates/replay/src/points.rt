// The two lists of a line about a curve: `N KNOTS.. N AVERAGES..`.
ghost use Rattle.std.specs.Prelude.{◌≤◌, length};

// How many knots a line may have, and how many averages.
pub(crate) const POINTS: usize = 32;

// The floats of a list, and behind them zeros.
#[derive(Clone, Copy)]
pub(crate) struct List {
    floats: [f64; POINTS],
    count: usize,
    ghost fits: { count ≤ 32 },
}

impl List {
    fn of_words(words: &[u64]) -> Option<Self> {
        let count = words.len();
        if POINTS < count {
            return None;
        }
        let mut floats = [0.0; POINTS];
        for (float, word) in floats.iter_mut().zip(words) {
            *float = numbers::of_bits(*word);
        }
        Some(Self { floats, count })
    }

    // The list whose count stands first among these words, and the words behind it.
    fn first_of(words: &[u64]) -> Option<(Self, &[u64])> {
        let (count, rest) = words.split_first()?;
        let (own, behind) = rest.split_at_checked(*count as usize)?;
        Some((Self::of_words(own)?, behind))
    }

    pub(crate) fn as_slice(&self) -> &[f64]
        ensures { length result.now ≤ 32 }
    {
        &self.floats[..self.count]
    }
}

// The knots and the averages of a table.
#[derive(Clone, Copy)]
pub(crate) struct Points {
    pub knots: List,
    pub averages: List,
}

impl Points {
    // The lists that these words begin with, and the words behind them.
    pub(crate) fn first_of(words: &[u64]) -> Option<(Self, &[u64])> {
        let (knots, rest) = List::first_of(words)?;
        let (averages, behind) = List::first_of(rest)?;
        Some((Self { knots, averages }, behind))
    }
}
