// One value everywhere.
ghost use Rattle.std.specs.Prelude.{◌≡◌};
ghost use Rattle.section.specs.EverywhereConstant.{new, value, primitive, f_next};

#[derive(Clone, Copy)]
pub struct EverywhereConstant {
    pub value: f64,
    pub prev_primitive: f64,
    pub x_prev: f64,
}

impl EverywhereConstant {
    pub fn new(value: f64, prev_primitive: f64, x_prev: f64) -> Self
        ensures { result ≡ new value prev_primitive x_prev }
    {
        Self {
            value,
            prev_primitive,
            x_prev,
        }
    }

    pub fn value(self, x: f64) -> f64
        ensures { result ≡ value self x }
    {
        self.value
    }

    pub fn primitive(self, x: f64) -> f64
        ensures { result ≡ primitive self x }
    {
        self.prev_primitive + (x - self.x_prev) * self.value
    }

    pub fn f_next(self) -> f64
        ensures { result ≡ f_next self }
    {
        self.value
    }
}
