// A curve that was built: how many sections its records hold, and what answers from the last knot on.
ghost use Rattle.std.specs.Prelude.{◌≡◌};
ghost use Rattle.curve.specs.Curve.{with_extrapolation, curve_in_numbers};

use assembly::sections::Tail;
use refusal::Refusal;

#[derive(Clone, Copy)]
pub struct Curve {
    pub sections: usize,
    pub held: bool,
    pub extrapolates: bool,
    pub tail: Tail,
}

impl Curve {
    // The same curve, with queries outside its knots allowed or not. A curve is built with them off.
    pub fn with_extrapolation(mut self, allow: bool) -> Self
        ensures { result ≡ with_extrapolation self allow }
    {
        self.extrapolates = allow;
        self
    }
}

// An answer in numbers: the refusal's, or 0, and what a curve has; a refused one has nothing.
#[derive(Clone, Copy)]
pub struct CurveInNumbers {
    pub refusal: u8,
    pub sections: usize,
    pub held: bool,
    pub extrapolates: bool,
    pub tail: Tail,
}

impl From<Result<Curve, Refusal>> for CurveInNumbers {
    ghost from_gives = { λ built n. n ≡ curve_in_numbers built };

    fn from(built: Result<Curve, Refusal>) -> Self {
        match built {
            Ok(curve) => CurveInNumbers {
                refusal: 0,
                sections: curve.sections,
                held: curve.held,
                extrapolates: curve.extrapolates,
                tail: curve.tail,
            },
            Err(refusal) => CurveInNumbers {
                refusal: refusal.number(),
                sections: 0,
                held: false,
                extrapolates: false,
                tail: Tail {
                    value: 0.0,
                    total: 0.0,
                    from: 0.0,
                },
            },
        }
    }
}
