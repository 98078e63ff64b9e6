// The settings of the method, passed whole.
ghost use Rattle.std.specs.Prelude.{◌≡◌};
ghost use Rattle.table.specs.Method.{new, defaults, gas, with_split, safely};

// When positivity splits a parabola. The original does so wherever its two tests pass, also where the period then loses its average. The careful split
// leaves such a parabola whole. The safe split decides as exact arithmetic would, so that no price falls below 0 either; its table has no average below 0.
#[derive(Clone, Copy, Debug, PartialEq, Eq)]
pub enum Split {
    Original,
    Careful,
    Safe,
}

#[derive(Clone, Copy)]
pub struct ConvexMonotone {
    pub quadraticity: f64,
    pub monotonicity: f64,
    pub force_positive: bool,
    pub split: Split,
}

impl ConvexMonotone {
    // The default. Power trades below 0, so positivity is off.
    pub const QUADRATICITY: f64 = 0.3;

    pub const MONOTONICITY: f64 = 0.7;

    pub const FORCE_POSITIVE: bool = false;

    // The gas default, which is the default of the original.
    pub const GAS_QUADRATICITY: f64 = 0.3;

    pub const GAS_MONOTONICITY: f64 = 0.7;

    pub const GAS_FORCE_POSITIVE: bool = true;

    // Any numbers are taken here; a build refuses those outside [0, 1]. The split is the original's.
    pub fn new(quadraticity: f64, monotonicity: f64, force_positive: bool) -> Self
        ensures { result ≡ new quadraticity monotonicity force_positive }
    {
        Self {
            quadraticity,
            monotonicity,
            force_positive,
            split: Split::Original,
        }
    }

    // The same settings with this split.
    pub fn with_split(self, split: Split) -> Self
        ensures { result ≡ with_split split self }
    {
        Self { split, ..self }
    }

    // Whether prices are to be safe: the safe split with positivity. Without positivity the safe split is the original's.
    pub fn is_safe(self) -> bool
        ensures { result ≡ safely self }
    {
        self.split == Split::Safe && self.force_positive
    }

    pub fn defaults() -> Self
        ensures { result ≡ defaults }
    {
        Self::new(Self::QUADRATICITY, Self::MONOTONICITY, Self::FORCE_POSITIVE)
    }

    pub fn gas() -> Self
        ensures { result ≡ gas }
    {
        Self::new(
            Self::GAS_QUADRATICITY,
            Self::GAS_MONOTONICITY,
            Self::GAS_FORCE_POSITIVE,
        )
    }
}
