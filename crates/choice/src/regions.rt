// Where a period lies, by how far its two nodes stand from its average. A NaN makes every test here false.
ghost use Rattle.std.specs.Prelude.{◌≡◌};
ghost use Rattle.choice.specs.Regions.{is_tiny, flat, min_fits, in_first, in_second, in_third};

use crate::case::Case;

fn is_tiny(g: f64) -> bool
    ensures { result ≡ is_tiny g }
{
    numbers::abs(g) < 1.0e-14
}

impl Case {
    #[tactic(auto, unfolding(crate::specs::Regions::flat))]
    pub(crate) fn is_flat(self) -> bool
        ensures { result ≡ flat self.g_prev self.g_next }
    {
        is_tiny(self.g_prev) && is_tiny(self.g_next)
    }

    // Whether positivity, where it holds, asks for the Min kind of the quadratic part.
    #[tactic(auto, unfolding(crate::specs::Regions::min_fits))]
    pub(crate) fn min_fits(self) -> bool
        ensures { result ≡ min_fits self.g_prev self.g_next }
    {
        let Case { g_prev, g_next, .. } = self;
        g_prev >= -2.0 * g_next && g_prev > -0.5 * g_next
    }

    // The three regions: g_prev above zero and below it are mirror images. Not `||` of the two: it asks for the sign twice, and takes a build 1 to 4 % more.
    #[tactic(auto, using(crate::proofs::Ways::signs), unfolding(crate::specs::Regions::in_first))]
    pub(crate) fn in_first(self) -> bool
        ensures { result ≡ in_first self.g_prev self.g_next }
    {
        let Case { g_prev, g_next, .. } = self;
        if g_prev > 0.0 {
            return -0.5 * g_prev >= g_next && g_next >= -2.0 * g_prev;
        }
        g_prev < 0.0 && (-0.5 * g_prev <= g_next && g_next <= -2.0 * g_prev)
    }

    #[tactic(auto, using(crate::proofs::Ways::signs), unfolding(crate::specs::Regions::in_second))]
    pub(crate) fn in_second(self) -> bool
        ensures { result ≡ in_second self.g_prev self.g_next }
    {
        let Case { g_prev, g_next, .. } = self;
        if g_prev < 0.0 {
            return g_next > -2.0 * g_prev;
        }
        g_prev > 0.0 && g_next < -2.0 * g_prev
    }

    #[tactic(auto, using(crate::proofs::Ways::signs), unfolding(crate::specs::Regions::in_third))]
    pub(crate) fn in_third(self) -> bool
        ensures { result ≡ in_third self.g_prev self.g_next }
    {
        let Case { g_prev, g_next, .. } = self;
        if g_prev > 0.0 {
            return g_next < 0.0 && g_next > -0.5 * g_prev;
        }
        g_prev < 0.0 && (g_next > 0.0 && g_next < -0.5 * g_prev)
    }
}
