// The words of a line: hexadecimal numbers, each after a space.
ghost use Rattle.std.specs.Prelude.{◌<◌, ◌≤◌, IfSome};

// How many words the longest line has: a table of 32 points with a seam.
pub(crate) const MOST: usize = 72;

// The words of a line, and behind them zeros.
#[derive(Clone, Copy)]
pub(crate) struct Words {
    values: [u64; MOST],
    count: usize,
    ghost fits: { count ≤ 72 },
}

fn digit(b: u8) -> Option<u64>
    ensures { IfSome result (λ d. d < 16) }
{
    match b {
        b'0'..=b'9' => Some(u64::from(b - b'0')),
        b'a'..=b'f' => Some(u64::from(b - b'a') + 10),
        _ => None,
    }
}

// The number of one to sixteen digits.
fn number(digits: &[u8]) -> Option<u64> {
    if digits.is_empty() || 16 < digits.len() {
        return None;
    }
    let mut value: u64 = 0;
    for b in digits {
        value = value << 4 | digit(*b)?;
    }
    Some(value)
}

impl Words {
    // The words that stand in these bytes. Where the bytes are not made of words there are none, so no such line is half trusted.
    pub(crate) fn of_bytes(bytes: &[u8]) -> Option<Self> {
        let mut values = [0; MOST];
        let mut count: usize = 0;
        let mut pieces = bytes.split(|b| *b == b' ');
        if !pieces.next()?.is_empty() {
            return None;
        }
        for piece in pieces {
            if MOST <= count {
                return None;
            }
            values[count] = number(piece)?;
            count += 1;
        }
        Some(Self { values, count })
    }

    pub(crate) fn as_slice(&self) -> &[u64] {
        &self.values[..self.count]
    }
}
