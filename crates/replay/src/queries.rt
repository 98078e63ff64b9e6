// A line `x X VALUE PRIMITIVE`: what a section answers at X.
use crate::marks;
use crate::records::Record;

// Whether the answers that a line tells are those of a record's section.
pub(crate) fn agrees(record: Record, x: u64, value: u64, primitive: u64) -> bool {
    match record::reading::read_section(record.tag, &record.slots) {
        None => false,
        Some(section) => {
            let at = numbers::of_bits(x);
            marks::agrees(section.value(at), value)
                && marks::agrees(section.primitive(at), primitive)
        }
    }
}
