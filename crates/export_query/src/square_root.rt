// The square root, for programs in other languages.
ghost use Rattle.std.specs.Prelude.{◌≡◌};
ghost use Rattle.root.specs.Root.{root};

pub fn havgrunel_sqrt(a: f64) -> f64
    ensures { result ≡ root a }
{
    root::sqrt(a)
}
