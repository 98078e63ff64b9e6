// A line `t TAG SLOT0 .. SLOT23 FNEXT`: a section's own fields, and the node it ends on.
use crate::marks::same_bits;
use numbers::FIELDS;
use section::section::Section;

// A section as its record alone: what is asked of it is asked of the section that is read back.
#[derive(Clone, Copy)]
pub(crate) struct Record {
    pub tag: u16,
    pub slots: [f64; FIELDS],
}

impl Record {
    pub(crate) fn of_section(section: Section) -> Self {
        Self {
            tag: record::tag::tag_of(section),
            slots: record::slots::slots_of(section),
        }
    }
}

// The words of a line.
pub(crate) const WORDS: usize = FIELDS + 2;

// The node that a record's section ends on, where it is legal.
fn ends_on(tag: u16, slots: &[f64], node: u64) -> bool {
    match record::reading::read_section(tag, slots) {
        None => false,
        Some(section) => numbers::to_bits(section.f_next()) == node,
    }
}

// Whether a record's section is as the line tells: its fields are the first slots. One that cannot be read back is not, whatever else it agrees in.
pub(crate) fn agrees(tag: u16, slots: &[f64], words: &[u64; WORDS]) -> bool {
    let Some(own) = slots.first_chunk::<FIELDS>() else {
        return false;
    };
    u64::from(tag) == words[0]
        && same_bits(own, &words[1..=FIELDS])
        && ends_on(tag, slots, words[FIELDS + 1])
}
