// A parabola up to eta3, then flat.
ghost use Rattle.std.specs.Prelude.{◌≡◌};
ghost use Rattle.convex.specs.ConvexMonotone3.{new, value, primitive, f_next};

#[derive(Clone, Copy)]
pub struct ConvexMonotone3 {
    pub x_prev: f64,
    pub x_scaling: f64,
    pub g_prev: f64,
    pub g_next: f64,
    pub f_average: f64,
    pub eta3: f64,
    pub prev_primitive: f64,
}

impl ConvexMonotone3 {
    pub fn new(
        x_prev: f64,
        x_next: f64,
        g_prev: f64,
        g_next: f64,
        f_average: f64,
        eta3: f64,
        prev_primitive: f64,
    ) -> Self
        ensures { result ≡ new x_prev x_next g_prev g_next f_average eta3 prev_primitive }
    {
        Self {
            x_prev,
            x_scaling: x_next - x_prev,
            g_prev,
            g_next,
            f_average,
            eta3,
            prev_primitive,
        }
    }

    #[tactic(auto, unfolding(crate::specs::ConvexMonotone3::value))]
    pub fn value(self, x: f64) -> f64
        ensures { result ≡ value self x }
    {
        let x_val = (x - self.x_prev) / self.x_scaling;
        if x_val <= self.eta3 {
            return self.f_average
                + self.g_next
                + (self.g_prev - self.g_next) / (self.eta3 * self.eta3)
                    * (self.eta3 - x_val)
                    * (self.eta3 - x_val);
        }
        self.f_average + self.g_next
    }

    #[tactic(auto, unfolding(crate::specs::ConvexMonotone3::primitive))]
    pub fn primitive(self, x: f64) -> f64
        ensures { result ≡ primitive self x }
    {
        let x_val = (x - self.x_prev) / self.x_scaling;
        if x_val <= self.eta3 {
            return self.prev_primitive
                + self.x_scaling
                    * (self.f_average * x_val
                        + self.g_next * x_val
                        + (self.g_prev - self.g_next) / (self.eta3 * self.eta3)
                            * (1.0 / 3.0 * x_val * x_val * x_val - self.eta3 * x_val * x_val
                                + self.eta3 * self.eta3 * x_val));
        }
        self.prev_primitive
            + self.x_scaling
                * (self.f_average * x_val
                    + self.g_next * x_val
                    + (self.g_prev - self.g_next) / (self.eta3 * self.eta3)
                        * (1.0 / 3.0 * self.eta3 * self.eta3 * self.eta3))
    }

    pub fn f_next(self) -> f64
        ensures { result ≡ f_next self }
    {
        self.f_average + self.g_next
    }
}
