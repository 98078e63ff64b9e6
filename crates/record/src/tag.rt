// A section's tag: which kinds it is made of, and whether they are split. The codes of the kinds stand here alone, for the tag that is written and for
// the one that is read.
ghost use Rattle.std.specs.Prelude.{◌≡◌};
ghost use Rattle.record.specs.Tag.{quadratic_named, other_named, quadratic_tag, convex_tag, tag_of, quadratic_split_tag, other_split_tag, split_tag};

use section::convex_monotone_part::ConvexMonotonePart;
use section::quadratic_part::QuadraticPart;
use section::section::Section;

// The kind of the quadratic part. A Min kind that is split is a kind of its own, so that nothing is left to be asked once the kind is known.
#[derive(Clone, Copy)]
pub enum QuadraticKind {
    Absent,
    Quadratic,
    QuadraticMin,
    QuadraticMinSplit,
}

// The kind of the other part.
#[derive(Clone, Copy)]
pub enum OtherKind {
    Absent,
    EverywhereConstant,
    ConstantGrad,
    ConvexMonotone2,
    ConvexMonotone3,
    ConvexMonotone4,
    ConvexMonotone4Min,
    ConvexMonotone4MinSplit,
}

// Where the codes and the split bits stand in a tag: what each is counted in.
const QUADRATIC_CODE: u16 = 0x2000;

const QUADRATIC_SPLIT: u16 = 0x1000;

const OTHER_CODE: u16 = 0x0100;

const OTHER_SPLIT: u16 = 0x0080;

// The bits of each kind. A part that there is not has none.
const ABSENT: u16 = 0;

const QUADRATIC: u16 = QUADRATIC_CODE * 1;

const QUADRATIC_MIN: u16 = QUADRATIC_CODE * 2;

const QUADRATIC_MIN_SPLIT: u16 = QUADRATIC_MIN + QUADRATIC_SPLIT;

const EVERYWHERE_CONSTANT: u16 = OTHER_CODE * 1;

const CONSTANT_GRAD: u16 = OTHER_CODE * 2;

const CONVEX_MONOTONE2: u16 = OTHER_CODE * 3;

const CONVEX_MONOTONE3: u16 = OTHER_CODE * 4;

const CONVEX_MONOTONE4: u16 = OTHER_CODE * 5;

const CONVEX_MONOTONE4_MIN: u16 = OTHER_CODE * 6;

const CONVEX_MONOTONE4_MIN_SPLIT: u16 = CONVEX_MONOTONE4_MIN + OTHER_SPLIT;

// The kind of the quadratic part that a tag names, by the bits from its split on; none where the code, or the split bit, has no meaning.
#[tactic(auto, using(std::proofs::lemmas::Bool::Decides::nat_tests), unfolding(crate::specs::Tag::quadratic_named))]
pub(crate) fn quadratic_named(tag: u16) -> Option<QuadraticKind>
    ensures { result ≡ quadratic_named tag }
{
    match tag / QUADRATIC_SPLIT * QUADRATIC_SPLIT {
        ABSENT => Some(QuadraticKind::Absent),
        QUADRATIC => Some(QuadraticKind::Quadratic),
        QUADRATIC_MIN => Some(QuadraticKind::QuadraticMin),
        QUADRATIC_MIN_SPLIT => Some(QuadraticKind::QuadraticMinSplit),
        _ => None,
    }
}

// The kind of the other part, by all bits below those; none where a spare bit is set, too.
#[tactic(auto, using(std::proofs::lemmas::Bool::Decides::nat_tests), unfolding(crate::specs::Tag::other_named))]
pub(crate) fn other_named(tag: u16) -> Option<OtherKind>
    ensures { result ≡ other_named tag }
{
    match tag % QUADRATIC_SPLIT {
        ABSENT => Some(OtherKind::Absent),
        EVERYWHERE_CONSTANT => Some(OtherKind::EverywhereConstant),
        CONSTANT_GRAD => Some(OtherKind::ConstantGrad),
        CONVEX_MONOTONE2 => Some(OtherKind::ConvexMonotone2),
        CONVEX_MONOTONE3 => Some(OtherKind::ConvexMonotone3),
        CONVEX_MONOTONE4 => Some(OtherKind::ConvexMonotone4),
        CONVEX_MONOTONE4_MIN => Some(OtherKind::ConvexMonotone4Min),
        CONVEX_MONOTONE4_MIN_SPLIT => Some(OtherKind::ConvexMonotone4MinSplit),
        _ => None,
    }
}

#[tactic(auto, unfolding(crate::specs::Tag::quadratic_tag))]
fn quadratic_tag(part: QuadraticPart) -> u16
    ensures { result ≡ quadratic_tag part }
{
    match part {
        QuadraticPart::Quadratic(_) => QUADRATIC,
        QuadraticPart::QuadraticMin(s) if s.split_region => QUADRATIC_MIN_SPLIT,
        QuadraticPart::QuadraticMin(_) => QUADRATIC_MIN,
    }
}

#[tactic(auto, unfolding(crate::specs::Tag::convex_tag))]
fn convex_tag(part: ConvexMonotonePart) -> u16
    ensures { result ≡ convex_tag part }
{
    match part {
        ConvexMonotonePart::ConvexMonotone2(_) => CONVEX_MONOTONE2,
        ConvexMonotonePart::ConvexMonotone3(_) => CONVEX_MONOTONE3,
        ConvexMonotonePart::ConvexMonotone4(_) => CONVEX_MONOTONE4,
        ConvexMonotonePart::ConvexMonotone4Min(s) if s.split_region => CONVEX_MONOTONE4_MIN_SPLIT,
        ConvexMonotonePart::ConvexMonotone4Min(_) => CONVEX_MONOTONE4_MIN,
    }
}

// The tag of a section, as a record of it is marked.
#[tactic(auto, unfolding(crate::specs::Tag::tag_of))]
pub fn tag_of(section: Section) -> u16
    ensures { result ≡ tag_of section }
{
    match section {
        Section::EverywhereConstant(_) => EVERYWHERE_CONSTANT,
        Section::ConstantGrad(_) => CONSTANT_GRAD,
        Section::ConvexMonotone2(_) => CONVEX_MONOTONE2,
        Section::ConvexMonotone3(_) => CONVEX_MONOTONE3,
        Section::ConvexMonotone4(_) => CONVEX_MONOTONE4,
        Section::ConvexMonotone4Min(s) => convex_tag(ConvexMonotonePart::ConvexMonotone4Min(s)),
        Section::Quadratic(_) => QUADRATIC,
        Section::QuadraticMin(s) => quadratic_tag(QuadraticPart::QuadraticMin(s)),
        Section::Combination(s) => {
            quadratic_tag(s.quadratic_helper) + convex_tag(s.conv_mono_helper)
        }
    }
}

// Whether a part is split, by its split bit alone. One function of any bit would need the bit and a clause on it at each call, and say less.
pub(crate) fn is_quadratic_split(tag: u16) -> bool
    ensures { result ≡ quadratic_split_tag tag }
{
    tag / QUADRATIC_SPLIT % 2 != 0
}

pub(crate) fn is_other_split(tag: u16) -> bool
    ensures { result ≡ other_split_tag tag }
{
    tag / OTHER_SPLIT % 2 != 0
}

// Whether either of them is.
pub fn is_split(tag: u16) -> bool
    ensures { result ≡ split_tag tag }
{
    is_quadratic_split(tag) | is_other_split(tag)
}
