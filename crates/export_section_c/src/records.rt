// One section's record: its slots copied out, and what it answers by itself.
ghost use Rattle.std.specs.Prelude.{◌≡◌};
ghost use Rattle.numbers.specs.OneOutcome.{pair};
ghost use Rattle.record.specs.Reading.{read_section};
ghost use Rattle.export_section.specs.Records.{copy_verdict, copied_by, answered, section_into};

// The slots of section `number` of a curve of `points` points, into the first entries of `into`.
#[unsafe(no_mangle)]
pub extern "C" fn havgrunel_record(
    points: usize,
    slots: &[f64],
    number: usize,
    into: &mut [f64],
) -> u8
    ensures { pair result into.new ≡ copied_by points slots.now number into.old (copy_verdict points slots.now number into.old) }
{
    export_section::records::havgrunel_record(points, slots, number, into)
}

// What the section of a record answers by itself: its value and its primitive at x, and the node that it ends on, into the first three entries
// of `answer`. All three are what the formulas gave, so the first two entries of `finite` say whether the value is finite, and whether the primitive is.
#[unsafe(no_mangle)]
pub extern "C" fn havgrunel_section(
    tag: u16,
    slots: &[f64],
    x: f64,
    answer: &mut [f64],
    finite: &mut [bool],
) -> u8
    ensures { answered result answer.new finite.new ≡ section_into (read_section tag slots.now) x answer.old finite.old }
{
    export_section::records::havgrunel_section(tag, slots, x, answer, finite)
}
