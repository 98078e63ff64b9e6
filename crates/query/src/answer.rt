// What a query is refused for, and what it is answered. `single` and `many` answer it.
ghost use Rattle.std.specs.Prelude.{Err, ◌≡◌, ◌||◌, ◌-◌, ◌*◌, ◌≤◌, ltb};
ghost use Rattle.refusal.specs.Refusal.{first};
ghost use Rattle.numbers.specs.Sizes.{slot_count};
ghost use Rattle.query.specs.declared.answer.ManyRefusal.TheVariants.{Whole};
ghost use Rattle.query.specs.Many.{many_in_numbers};
ghost use Rattle.query.specs.Query.{outside, curve_tests, point_tests, query_tests, number_in, verdict_in, finite_in, answer_in_numbers, curve_with};

use assembly::sections::Tail;
use curve::curve::Curve;
use numbers::{Marked, SLOTS};
use refusal::Refusal;
use table::check::knots_of;

// An answer in numbers: the refusal's, or 0, and the number, which is +0.0 where it is refused. A number that is not finite is refused here.
#[derive(Clone, Copy)]
pub struct AnswerInNumbers {
    pub refusal: u8,
    pub answer: f64,
}

// Why many queries are not answered: for a fault of all, or for the first query that is refused, counted from 0.
#[derive(Clone, Copy, Debug, PartialEq, Eq)]
pub enum ManyRefusal {
    Whole(Refusal),
    Query(Refusal, usize),
}

impl From<Refusal> for ManyRefusal {
    ghost from_gives = { λ refusal m. m ≡ Whole refusal };

    fn from(refusal: Refusal) -> Self {
        ManyRefusal::Whole(refusal)
    }
}

// The answer to many queries in numbers: the refusal's, or 0, and which query was refused first, or how many there are where none was.
#[repr(C)]
#[derive(Clone, Copy)]
pub struct ManyInNumbers {
    pub refusal: u8,
    pub query: usize,
}

// What a query reads of a curve beside its knots and records. It asks neither how many sections there are nor whether the last is held.
pub fn curve_with(value: f64, total: f64, from: f64, extrapolates: bool) -> Curve
    ensures { result ≡ curve_with value total from extrapolates }
{
    let tail = Tail { value, total, from };
    Curve {
        sections: 0,
        held: false,
        extrapolates,
        tail,
    }
}

// What refuses an answer: a number that is not finite is refused too, after all else.
pub fn verdict(asked: Result<Marked, Refusal>) -> Result<(), Refusal>
    ensures { result ≡ verdict_in asked }
{
    if asked?.finite {
        return Ok(());
    }
    Err(Refusal::NotFinite)
}

// An answer's number by its bits, finite or not, and +0.0 where there is none.
pub fn number(asked: Result<Marked, Refusal>) -> f64
    ensures { result ≡ number_in asked }
{
    match asked {
        Ok(marked) => marked.number,
        Err(_) => 0.0,
    }
}

// An answer's number, or what refuses it.
pub fn finite(asked: Result<Marked, Refusal>) -> Result<f64, Refusal>
    ensures { result ≡ finite_in asked }
{
    verdict(asked)?;
    Ok(number(asked))
}

impl From<Result<Marked, Refusal>> for AnswerInNumbers {
    ghost from_gives = { λ asked n. n ≡ answer_in_numbers asked };

    fn from(asked: Result<Marked, Refusal>) -> Self {
        match finite(asked) {
            Ok(answer) => AnswerInNumbers { refusal: 0, answer },
            Err(refusal) => AnswerInNumbers {
                refusal: refusal.number(),
                answer: 0.0,
            },
        }
    }
}

impl ManyInNumbers {
    // Of so many queries.
    pub fn of(answered: Result<(), ManyRefusal>, count: usize) -> Self
        ensures { result ≡ many_in_numbers answered count }
    {
        match answered {
            Ok(()) => ManyInNumbers {
                refusal: 0,
                query: count,
            },
            Err(ManyRefusal::Whole(refusal)) => ManyInNumbers {
                refusal: refusal.number(),
                query: count,
            },
            Err(ManyRefusal::Query(refusal, query)) => ManyInNumbers {
                refusal: refusal.number(),
                query,
            },
        }
    }
}

fn no_room(points: usize, tags: usize, slots: usize) -> bool
    requires { (2 ≤ points) × (points ≤ 4096) }
    ensures { result ≡ (ltb tags (points - 1) || ltb slots (slot_count * (points - 1))) }
{
    tags < points - 1 || slots < SLOTS * (points - 1)
}

fn is_outside(xs: &[f64], curve: Curve, q: f64) -> bool
    ensures { result ≡ outside xs.now curve q }
{
    if curve.extrapolates {
        return false;
    }
    if xs.len() == 0 {
        return true;
    }
    let last = xs.len() - 1;
    !(xs[0] <= q && q <= xs[last])
}

// What is asked whatever the query: refusals 4, 5, 7, 10 and 11, for lent records of these lengths.
pub fn curve_verdict(xs: &[f64], tags: usize, slots: usize) -> Result<(), Refusal>
    ensures { result ≡ first (curve_tests xs.now tags slots) }
{
    if xs.len() < 2 {
        return Err(Refusal::TooFewPoints);
    }
    let knots = knots_of(xs);
    if !knots.finite {
        return Err(Refusal::KnotNotFinite);
    }
    if !knots.rising {
        return Err(Refusal::KnotsNotRising);
    }
    if 4096 < xs.len() {
        return Err(Refusal::TooManyPoints);
    }
    if no_room(xs.len(), tags, slots) {
        return Err(Refusal::BufferTooShort);
    }
    Ok(())
}

// What is asked of the query itself: refusals 12 and 13.
pub(crate) fn point_verdict(xs: &[f64], curve: Curve, q: f64) -> Result<(), Refusal>
    ensures { result ≡ first (point_tests xs.now curve q) }
{
    if q != q {
        return Err(Refusal::QueryNotANumber);
    }
    if is_outside(xs, curve, q) {
        return Err(Refusal::QueryOutside);
    }
    Ok(())
}

// The first refusal of a query, short of an illegal record.
pub(crate) fn query_verdict(
    xs: &[f64],
    curve: Curve,
    tags: usize,
    slots: usize,
    q: f64,
) -> Result<(), Refusal>
    ensures { result ≡ first (query_tests xs.now curve tags slots q) }
{
    curve_verdict(xs, tags, slots)?;
    point_verdict(xs, curve, q)
}

// The method has no derivative: whatever is asked, it is refused.
pub fn derivative(q: f64) -> Result<Marked, Refusal>
    ensures { result ≡ Err Refusal.DerivativeAsked }
{
    Err(Refusal::DerivativeAsked)
}
