// The two defaults of the method: that which holds where nothing else is asked for, and that for gas.
ghost use Rattle.std.specs.Prelude.{◌≡◌};
ghost use Rattle.table.specs.Method.{defaults, gas};

#[unsafe(no_mangle)]
pub extern "C" fn havgrunel_default_quadraticity() -> f64
    ensures { result ≡ defaults.quadraticity }
{
    export_query::settings::havgrunel_default_quadraticity()
}

#[unsafe(no_mangle)]
pub extern "C" fn havgrunel_default_monotonicity() -> f64
    ensures { result ≡ defaults.monotonicity }
{
    export_query::settings::havgrunel_default_monotonicity()
}

#[unsafe(no_mangle)]
pub extern "C" fn havgrunel_default_positivity() -> bool
    ensures { result ≡ defaults.force_positive }
{
    export_query::settings::havgrunel_default_positivity()
}

#[unsafe(no_mangle)]
pub extern "C" fn havgrunel_gas_quadraticity() -> f64
    ensures { result ≡ gas.quadraticity }
{
    export_query::settings::havgrunel_gas_quadraticity()
}

#[unsafe(no_mangle)]
pub extern "C" fn havgrunel_gas_monotonicity() -> f64
    ensures { result ≡ gas.monotonicity }
{
    export_query::settings::havgrunel_gas_monotonicity()
}

#[unsafe(no_mangle)]
pub extern "C" fn havgrunel_gas_positivity() -> bool
    ensures { result ≡ gas.force_positive }
{
    export_query::settings::havgrunel_gas_positivity()
}
