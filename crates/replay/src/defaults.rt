// A line `m POSITIVITY Q M`: the settings that the original takes where none are named. They are the gas default.
use crate::marks::same_bits;
use table::method::ConvexMonotone;

// Whether the settings that a line tells are ours.
pub(crate) fn agrees(positivity: u64, q: u64, m: u64) -> bool {
    let gas = ConvexMonotone::gas();
    u64::from(gas.force_positive) == positivity
        && same_bits(&[gas.quadraticity, gas.monotonicity], &[q, m])
}
