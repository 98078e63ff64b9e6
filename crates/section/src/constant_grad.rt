// A straight line.
ghost use Rattle.std.specs.Prelude.{◌≡◌};
ghost use Rattle.section.specs.ConstantGrad.{new, value, primitive, f_next};

#[derive(Clone, Copy)]
pub struct ConstantGrad {
    pub f_prev: f64,
    pub prev_primitive: f64,
    pub x_prev: f64,
    pub f_grad: f64,
    pub f_next: f64,
}

impl ConstantGrad {
    pub fn new(f_prev: f64, prev_primitive: f64, x_prev: f64, x_next: f64, f_next: f64) -> Self
        ensures { result ≡ new f_prev prev_primitive x_prev x_next f_next }
    {
        Self {
            f_prev,
            prev_primitive,
            x_prev,
            f_grad: (f_next - f_prev) / (x_next - x_prev),
            f_next,
        }
    }

    pub fn value(self, x: f64) -> f64
        ensures { result ≡ value self x }
    {
        self.f_prev + (x - self.x_prev) * self.f_grad
    }

    pub fn primitive(self, x: f64) -> f64
        ensures { result ≡ primitive self x }
    {
        self.prev_primitive
            + (x - self.x_prev) * (self.f_prev + 0.5 * (x - self.x_prev) * self.f_grad)
    }

    pub fn f_next(self) -> f64
        ensures { result ≡ f_next self }
    {
        self.f_next
    }
}
