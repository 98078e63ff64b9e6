// The slots of one section's record, handed back as a part of the lent slots.
ghost use Rattle.std.specs.Prelude.{◌≡◌, length};
ghost use Rattle.record.specs.Reader.{record_verdict, record_part};

use numbers::SLOTS;
use refusal::Refusal;

// What refuses a record's number, for a curve of `points` points.
pub fn record_verdict(points: usize, slots: &[f64], number: usize) -> Result<(), Refusal>
    ensures { result ≡ record_verdict points (length slots.now) number }
{
    if points < 2 {
        return Err(Refusal::TooFewPoints);
    }
    if 4096 < points {
        return Err(Refusal::TooManyPoints);
    }
    if slots.len() < SLOTS * (points - 1) {
        return Err(Refusal::BufferTooShort);
    }
    if points - 1 <= number {
        return Err(Refusal::RecordNotLegal);
    }
    Ok(())
}

// The record's slots where nothing refuses it, else an empty part.
pub fn record_slots(points: usize, slots: &[f64], number: usize) -> &[f64]
    ensures { result.now ≡ record_part (record_verdict points (length slots.now) number) slots.now number }
{
    match record_verdict(points, slots, number) {
        Ok(()) => {
            let from = SLOTS * number;
            &slots[from..from + SLOTS]
        }
        Err(_) => &slots[0..0],
    }
}
