// The square root, correctly rounded, by whole-number arithmetic.
#![tactic(auto)]

ghost use Rattle.std.specs.Prelude.{◌≡◌, ◌+◌, ◌*◌, ◌/◌, ◌%◌, ◌^◌, ◌≤◌, ◌<◌, IfSome};
ghost use Rattle.root.specs.Root.{root, nearest_root, scaled, pairs};
ghost use Rattle.root.specs.Steps.{root_bits, units_of_bits};

// The whole number nearest to the square root of s * 2^52. Each turn takes two more binary digits of that number, the next pair standing on
// top of `left`, and finds one more of its root: root * root + rest is always the number made of the digits taken so far.
fn nearest_root(s: u64) -> u64
    requires { s < 2 ^ 54 }
    ensures { result ≡ nearest_root (s * 2 ^ 52) }
{
    let mut left = s;
    let mut rest: u64 = 0;
    let mut root: u64 = 0;
    for i in 0u64..53 {
        let next = rest * 4 + left / 0x10_0000_0000_0000;
        left = left % 0x10_0000_0000_0000 * 4;
        let trial = root * 4 + 1;
        if trial <= next {
            rest = next - trial;
            root = root * 2 + 1;
        } else {
            rest = next;
            root = root * 2;
        }
    }
    if root < rest {
        return root + 1;
    }
    root
}

// A number at the size that the root needs. The root's bits are the whole number nearest to the root of significand * 2^52, plus exponent * 2^52.
#[derive(Clone, Copy)]
struct Normalised {
    significand: u64,
    exponent: u64,
}

// Brings q * 2^k units, subnormal or normal, to size by the leading zeros of q: 53 digits, or 54 where the exponent is odd, so that the rest is a power of 4.
fn normalise(q: u64, k: u64) -> Normalised
    requires { (0 < q) × (q < 2 ^ 53) × (k ≤ 2045) }
    ensures { (result.significand * 2 ^ 52 ≡ scaled (q * 2 ^ k)) × (result.exponent ≡ pairs (q * 2 ^ k) + 484) }
{
    let zeros = q.leading_zeros() as u64;
    let twice = k + 1033 - zeros;
    let significand = q << (zeros - 11 + twice % 2);
    Normalised {
        significand,
        exponent: twice / 2,
    }
}

// The bits of the root of q * 2^k units.
fn root_of(q: u64, k: u64) -> u64
    requires { (0 < q) × (q < 2 ^ 53) × (k ≤ 2045) }
    ensures { result ≡ root_bits (q * 2 ^ k) }
{
    let n = normalise(q, k);
    n.exponent * 0x10_0000_0000_0000 + nearest_root(n.significand)
}

// The bits of the root of the positive finite number with these bits, the plain way.
fn plain(bits: u64) -> u64
    requires { (0 < bits) × (bits < 2047 * 2 ^ 52) }
    ensures { result ≡ root_bits (units_of_bits bits) }
{
    let field = bits / 0x10_0000_0000_0000;
    if field == 0 {
        return root_of(bits, 0);
    }
    let k = field - 1;
    root_of(bits - k * 0x10_0000_0000_0000, k)
}

// The square root of a, rounded to the nearest, the plain way. A zero, +infinity and a NaN are their own roots, and a number below zero has none.
fn special(a: f64) -> f64
    ensures { result ≡ root a }
{
    if a == 0.0 {
        return a;
    }
    if a < 0.0 {
        return f64::NAN;
    }
    if numbers::is_finite(a) {
        return f64::from_bits(plain(a.to_bits()));
    }
    a
}

// The root of the normal number a with these bits, within an ulp or so; nothing is promised of it. Half the bits, taken from a constant, are those of its
// reciprocal root, near enough; a polynomial takes away what that is off, to 30 binary digits, and a step of Newton's doubles those, with no division.
fn guess(a: f64, bits: u64) -> f64
    requires { bits < 2047 * 2 ^ 52 }
{
    let y = f64::from_bits(0x5fe6_0000_0000_0000 - bits / 2);
    let z = a * y;
    let e = z * y;
    let ee = e * e;
    let low = 2.8044141519973484 - 5.0148694218507845 * e
        + ee * (6.454128266295795 - 4.942359598279734 * e);
    let p = low + ee * ee * (2.0597421617082423 - 0.36105556435542824 * e);
    let x = z * p;
    x + 0.5 * y * p * (a - x * x)
}

// The whole number nearest to the square root of s * 2^52, found from one close by, or none where g is not seen to be close. The square of g is
// whole * 2^44 + rest, exactly, and n - m is how far s * 2^52 lies above it. Up to 3 * 2^52 either way, 768 units of 2^44, g or one of its neighbours is nearest;
// rest is below two units, so 766 are looked at below and 768 above.
fn settle(s: u64, g: u64) -> Option<u64>
    requires { (s < 2 ^ 54) × (2 ^ 52 ≤ g) × (g < 3 * 2 ^ 52) }
    ensures { IfSome result (λ r. r ≡ nearest_root (s * 2 ^ 52)) }
{
    let a = g / 0x40_0000;
    let b = g % 0x40_0000;
    let ab = a * b;
    let whole = a * a + ab / 0x20_0000;
    let rest = ab % 0x20_0000 * 0x80_0000 + b * b;
    let top = s * 256 + 766;
    // `checked_sub` would put two more moves on the way of every root.
    if top < whole {
        return None;
    }
    let above = top - whole;
    if 1534 < above {
        return None;
    }
    let n = above * 0x1000_0000_0000;
    let m = rest + 0x2f_e000_0000_0000;
    Some(g + (m + g < n) as u64 - (n + g <= m) as u64)
}

// The bits of the root of the normal number a with these bits: a guess, made right by whole numbers, or none where it was too far off. Of the guess only the
// significand is taken.
fn normal(a: f64, bits: u64) -> Option<u64>
    requires { (2 ^ 52 ≤ bits) × (bits < 2047 * 2 ^ 52) }
    ensures { IfSome result (λ r. r ≡ root_bits (units_of_bits bits)) }
{
    let q = bits % 0x10_0000_0000_0000 + 0x10_0000_0000_0000;
    let n = normalise(q, bits / 0x10_0000_0000_0000 - 1);
    let x = guess(a, bits);
    if x.is_nan() {
        return None;
    }
    let g = x.to_bits() % 0x10_0000_0000_0000 + 0x10_0000_0000_0000;
    let r = settle(n.significand, g)?;
    Some(n.exponent * 0x10_0000_0000_0000 + r)
}

// The square root of a, rounded to the nearest. Nearly every number is normal, and is tested for that alone.
pub fn sqrt(a: f64) -> f64
    ensures { result ≡ root a }
{
    if 0.0 < a && a <= f64::MAX {
        let bits = a.to_bits();
        if 0x10_0000_0000_0000 <= bits {
            if let Some(r) = normal(a, bits) {
                return f64::from_bits(r);
            }
        }
    }
    special(a)
}
