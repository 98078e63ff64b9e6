// The two defaults of the method: that which holds where nothing else is asked for, and that for gas.
ghost use Rattle.std.specs.Prelude.{◌≡◌};
ghost use Rattle.table.specs.Method.{defaults, gas};

use table::method::ConvexMonotone;

pub fn havgrunel_default_quadraticity() -> f64
    ensures { result ≡ defaults.quadraticity }
{
    ConvexMonotone::defaults().quadraticity
}

pub fn havgrunel_default_monotonicity() -> f64
    ensures { result ≡ defaults.monotonicity }
{
    ConvexMonotone::defaults().monotonicity
}

pub fn havgrunel_default_positivity() -> bool
    ensures { result ≡ defaults.force_positive }
{
    ConvexMonotone::defaults().force_positive
}

pub fn havgrunel_gas_quadraticity() -> f64
    ensures { result ≡ gas.quadraticity }
{
    ConvexMonotone::gas().quadraticity
}

pub fn havgrunel_gas_monotonicity() -> f64
    ensures { result ≡ gas.monotonicity }
{
    ConvexMonotone::gas().monotonicity
}

pub fn havgrunel_gas_positivity() -> bool
    ensures { result ≡ gas.force_positive }
{
    ConvexMonotone::gas().force_positive
}
