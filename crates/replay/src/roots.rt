// A line `r A S`: the root of A is S.

// Whether the root that a line tells is ours.
pub(crate) fn agrees(a: u64, s: u64) -> bool {
    numbers::to_bits(root::sqrt(numbers::of_bits(a))) == s
}
