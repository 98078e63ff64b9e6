// The square root, for programs in other languages.
ghost use Rattle.std.specs.Prelude.{◌≡◌};
ghost use Rattle.root.specs.Root.{root};

#[unsafe(no_mangle)]
pub extern "C" fn havgrunel_sqrt(a: f64) -> f64
    ensures { result ≡ root a }
{
    export_query::square_root::havgrunel_sqrt(a)
}
