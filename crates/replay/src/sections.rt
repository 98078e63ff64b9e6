// A line `s KIND ARGS..`: a section, made by its kind's own `new`.
use convex::convex_monotone2::ConvexMonotone2;
use convex::convex_monotone3::ConvexMonotone3;
use convex::convex_monotone4::ConvexMonotone4;
use convex::convex_monotone4_min::ConvexMonotone4Min;
use quadratic::quadratic::Quadratic;
use quadratic::quadratic_min::QuadraticMin;
use section::combination::Combination;
use section::constant_grad::ConstantGrad;
use section::convex_monotone_part::ConvexMonotonePart;
use section::everywhere_constant::EverywhereConstant;
use section::quadratic_part::QuadraticPart;
use section::section::Section;

// The floats of so many words, where there are just as many.
fn floats<const N: usize>(words: &[u64]) -> Option<[f64; N]> {
    let words = words.as_array::<N>()?;
    let mut found = [0.0; N];
    for (float, word) in found.iter_mut().zip(words) {
        *float = numbers::of_bits(*word);
    }
    Some(found)
}

fn quadratic(kind: u64, words: &[u64]) -> Option<QuadraticPart> {
    let [a, b, c, d, e, f] = floats::<6>(words)?;
    match kind {
        7 => Some(QuadraticPart::Quadratic(Quadratic::new(a, b, c, d, e, f))),
        8 => Some(QuadraticPart::QuadraticMin(QuadraticMin::new(a, b, c, d, e, f))),
        _ => None,
    }
}

fn convex(kind: u64, words: &[u64]) -> Option<ConvexMonotonePart> {
    let [a, b, c, d, e, f, g] = floats::<7>(words)?;
    match kind {
        3 => Some(ConvexMonotonePart::ConvexMonotone2(ConvexMonotone2::new(a, b, c, d, e, f, g))),
        4 => Some(ConvexMonotonePart::ConvexMonotone3(ConvexMonotone3::new(a, b, c, d, e, f, g))),
        5 => Some(ConvexMonotonePart::ConvexMonotone4(ConvexMonotone4::new(a, b, c, d, e, f, g))),
        6 => Some(ConvexMonotonePart::ConvexMonotone4Min(ConvexMonotone4Min::new(
            a, b, c, d, e, f, g,
        ))),
        _ => None,
    }
}

// The weight, the quadratic part's kind and its six arguments, then the other part's kind and its seven.
fn combination(words: &[u64; 16]) -> Option<Section> {
    let weight = numbers::of_bits(words[0]);
    let quadratic = quadratic(words[1], &words[2..8])?;
    let other = convex(words[8], &words[9..])?;
    Some(Section::Combination(Combination::new(quadratic, other, weight)))
}

// The section that a line's words make. There is none where there is no such kind or it takes more words or fewer.
pub(crate) fn of_words(words: &[u64]) -> Option<Section> {
    let (kind, rest) = words.split_first()?;
    match *kind {
        1 => {
            let [a, b, c] = floats::<3>(rest)?;
            Some(Section::EverywhereConstant(EverywhereConstant::new(a, b, c)))
        }
        2 => {
            let [a, b, c, d, e] = floats::<5>(rest)?;
            Some(Section::ConstantGrad(ConstantGrad::new(a, b, c, d, e)))
        }
        3..=6 => Some(convex(*kind, rest)?.alone()),
        7 | 8 => Some(quadratic(*kind, rest)?.alone()),
        9 => combination(rest.as_array()?),
        _ => None,
    }
}
