// Two parabolas that meet at eta4.
ghost use Rattle.std.specs.Prelude.{◌≡◌};
ghost use Rattle.convex.specs.ConvexMonotone4.{new, value, primitive, f_next, left_value, right_value, left_primitive, right_primitive};

#[derive(Clone, Copy)]
pub struct ConvexMonotone4 {
    pub x_prev: f64,
    pub x_scaling: f64,
    pub g_prev: f64,
    pub g_next: f64,
    pub f_average: f64,
    pub eta4: f64,
    pub prev_primitive: f64,
    pub a: f64,
}

impl ConvexMonotone4 {
    pub fn new(
        x_prev: f64,
        x_next: f64,
        g_prev: f64,
        g_next: f64,
        f_average: f64,
        eta4: f64,
        prev_primitive: f64,
    ) -> Self
        ensures { result ≡ new x_prev x_next g_prev g_next f_average eta4 prev_primitive }
    {
        Self {
            x_prev,
            x_scaling: x_next - x_prev,
            g_prev,
            g_next,
            f_average,
            eta4,
            prev_primitive,
            a: -0.5 * (eta4 * g_prev + (1.0 - eta4) * g_next),
        }
    }

    // The parabola on each side of eta4 and what lies under it, at a place v that the caller has scaled.
    pub(crate) fn left_value(self, v: f64) -> f64
        ensures { result ≡ left_value self v }
    {
        self.f_average
            + self.a
            + (self.g_prev - self.a) * (self.eta4 - v) * (self.eta4 - v) / (self.eta4 * self.eta4)
    }

    pub(crate) fn right_value(self, v: f64) -> f64
        ensures { result ≡ right_value self v }
    {
        self.f_average
            + self.a
            + (self.g_next - self.a) * (v - self.eta4) * (v - self.eta4)
                / ((1.0 - self.eta4) * (1.0 - self.eta4))
    }

    pub(crate) fn left_primitive(self, scaling: f64, v: f64) -> f64
        ensures { result ≡ left_primitive self scaling v }
    {
        self.prev_primitive
            + scaling
                * (self.f_average
                    + self.a
                    + (self.g_prev - self.a) / (self.eta4 * self.eta4)
                        * (self.eta4 * self.eta4 - self.eta4 * v + 1.0 / 3.0 * v * v))
                * v
    }

    pub(crate) fn right_primitive(self, scaling: f64, v: f64) -> f64
        ensures { result ≡ right_primitive self scaling v }
    {
        self.prev_primitive
            + scaling
                * (self.f_average * v
                    + self.a * v
                    + (self.g_prev - self.a) * (1.0 / 3.0 * self.eta4)
                    + (self.g_next - self.a) / ((1.0 - self.eta4) * (1.0 - self.eta4))
                        * (1.0 / 3.0 * v * v * v - self.eta4 * v * v + self.eta4 * self.eta4 * v
                            - 1.0 / 3.0 * self.eta4 * self.eta4 * self.eta4))
    }

    #[tactic(auto, unfolding(crate::specs::ConvexMonotone4::value))]
    pub fn value(self, x: f64) -> f64
        ensures { result ≡ value self x }
    {
        let x_val = (x - self.x_prev) / self.x_scaling;
        if x_val <= self.eta4 {
            return self.left_value(x_val);
        }
        self.right_value(x_val)
    }

    #[tactic(auto, unfolding(crate::specs::ConvexMonotone4::primitive))]
    pub fn primitive(self, x: f64) -> f64
        ensures { result ≡ primitive self x }
    {
        let x_val = (x - self.x_prev) / self.x_scaling;
        if x_val <= self.eta4 {
            return self.left_primitive(self.x_scaling, x_val);
        }
        self.right_primitive(self.x_scaling, x_val)
    }

    pub fn f_next(self) -> f64
        ensures { result ≡ f_next self }
    {
        self.f_average + self.g_next
    }
}
