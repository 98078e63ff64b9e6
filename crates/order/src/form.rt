// What the bytes of an order say.
ghost use Rattle.std.specs.Prelude.{◌≡◌, true, false, ℕ, ◌+◌, ◌-◌, ◌*◌, ◌^◌, ◌≤◌, ◌<◌, length, MatchOption};
ghost use Rattle.std.specs.Float.{binary64};
ghost use Rattle.std.specs.Float.Ieee.{of_bits};
ghost use Rattle.numbers.specs.Overlay.{overlay};
ghost use Rattle.order.specs.Form.{byte_at, number_from, number_at, header_of, well_formed, bit_of, points_of, queries_of, points, queries, hold, allow, method};

use table::method::ConvexMonotone;

// Behind the last byte stand zeros.
fn byte_at(order: &[u8], i: usize) -> u64
    ensures { (result ≡ byte_at order.now i) × (result < 256) }
{
    if i < order.len() {
        return u64::from(order[i]);
    }
    0
}

// The number in `count` bytes from a place on, the most significant first. By places: a byte past the end counts as 0, so there is no slice to go over.
fn number_from(order: &[u8], at: usize, count: usize) -> u64
    requires { (at ≤ 4096) × (count ≤ 8) }
    ensures { (result ≡ number_from order.now at count) × (result < 256 ^ count) }
{
    let mut w: u64 = 0;
    for k in 0..count {
        w = w * 256 + byte_at(order, at + k);
    }
    w
}

// One of the header's bits, named by its worth.
fn bit(header: u64, worth: u64) -> bool
    requires { 0 < worth }
    ensures { result ≡ bit_of header worth }
{
    header / worth % 2 == 1
}

fn points_of(header: u64) -> usize
    ensures { (result ≡ points_of header) × (result < 4096) }
{
    (header / 4096 % 4096) as usize
}

fn queries_of(header: u64) -> usize
    ensures { (result ≡ queries_of header) × (result < 4096) }
{
    (header % 4096) as usize
}

fn well_formed(order: &[u8]) -> bool
    ensures { result ≡ well_formed order.now }
{
    let header = number_from(order, 0, 4);
    if header / 0x100_0000 % 32 != 0 {
        return false;
    }
    let points = points_of(header);
    let queries = queries_of(header);
    if 200 < points {
        return false;
    }
    if 64 < queries {
        return false;
    }
    order.len() == 20 + 16 * points + 8 * queries
}

// The bytes of a well-formed order.
#[derive(Clone, Copy)]
pub(crate) struct Form<'a> {
    pub bytes: &'a [u8],
    ghost sound: { well_formed bytes.now ≡ true },
}

impl<'a> Form<'a> {
    // The form of an order, where it is well formed.
    pub(crate) fn of(order: &'a [u8]) -> Option<Self>
        ensures { MatchOption result (well_formed order.now ≡ false) (λ form. form.bytes.now ≡ order.now) }
    {
        if !well_formed(order) {
            return None;
        }
        Some(Form { bytes: order })
    }

    fn header(self) -> u64
        ensures { (result ≡ header_of self.entry.bytes.now) × (result < 256 ^ 4) }
    {
        number_from(self.bytes, 0, 4)
    }

    pub(crate) fn points(self) -> usize
        ensures { (result ≡ points self.entry.bytes.now) × (result ≤ 200) }
    {
        points_of(self.header())
    }

    pub(crate) fn queries(self) -> usize
        ensures { (result ≡ queries self.entry.bytes.now) × (result ≤ 64) }
    {
        queries_of(self.header())
    }

    // Whether the last period is held.
    pub(crate) fn hold(self) -> bool
        ensures { result ≡ hold self.entry.bytes.now }
    {
        bit(self.header(), 0x4000_0000)
    }

    // Whether queries outside the knots are allowed.
    pub(crate) fn allow(self) -> bool
        ensures { result ≡ allow self.entry.bytes.now }
    {
        bit(self.header(), 0x2000_0000)
    }

    pub(crate) fn method(self) -> ConvexMonotone
        ensures { result ≡ method self.entry.bytes.now }
    {
        ConvexMonotone::new(
            self.float_at(4),
            self.float_at(12),
            bit(self.header(), 0x8000_0000),
        )
    }

    pub(crate) fn float_at(self, at: usize) -> f64
        requires { at ≤ 4096 }
        ensures { result ≡ number_at self.entry.bytes.now at }
    {
        numbers::of_bits(number_from(self.bytes, at, 8))
    }

    // Reads so many floats into the start of a lent buffer.
    pub(crate) fn read_floats(self, at: usize, count: usize, to: &mut [f64])
        requires { (at ≤ 2048) × (count ≤ 200) × (count ≤ length to.old) }
        ensures { to.new ≡ overlay 0 count (λ i. number_at self.entry.bytes.now (at + 8 * i)) to.old }
    {
        for i in 0..count {
            to[i] = self.float_at(at + 8 * i);
        }
    }
}
