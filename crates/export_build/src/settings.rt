// The settings of the method across the boundary.
ghost use Rattle.std.specs.Prelude.{◌≡◌};
ghost use Rattle.export_build.specs.Settings.{split_of, method_of};

use table::method::{ConvexMonotone, Split};

// The split by its number: 0 is the original's, 1 the careful one and 2 the safe one. Every call refuses any other number beforehand.
fn split_of(split: u8) -> Split
    ensures { result ≡ split_of split }
{
    match split {
        1 => Split::Careful,
        2 => Split::Safe,
        _ => Split::Original,
    }
}

// The method's numbers, positivity, and the number of the split.
pub(crate) fn method_of(
    quadraticity: f64,
    monotonicity: f64,
    positive: bool,
    split: u8,
) -> ConvexMonotone
    ensures { result ≡ method_of quadraticity monotonicity positive split }
{
    let method = ConvexMonotone::new(quadraticity, monotonicity, positive);
    method.with_split(split_of(split))
}
