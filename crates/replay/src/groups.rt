// The lines about one section or one curve: first how it is made, then its records, then what it answers.
use crate::kept::Kept;
use crate::marks::{Told, by_mark};
use crate::records::Record;
use crate::seen::Seen;
use crate::tables::Table;
use crate::words::Words;
use crate::{curves, cuts, defaults, growths, kept, queries, records, roots, sections, strips};
use curve::curve::Curve;

// What the next lines are about: a section whose record is not told yet, or that is asked; an outcome that is not told yet; a curve of which so many
// records were told, one of which the section in the next record was told too but not its knots, one whose end was told too, one whose nodes were told
// too, or one that is told whole and is asked.
#[derive(Clone, Copy)]
enum Subject {
    Nothing,
    Made(Record),
    ReadBack(Record),
    Outcome,
    Curve(Curve, usize),
    Record(Curve, usize),
    Ended(Curve),
    Noded(Curve),
    Whole(Curve),
}

// What is kept of the last table is grown from, whatever sound line came since, until it is forgotten.
#[derive(Clone, Copy)]
pub(crate) struct State {
    pub seen: Seen,
    subject: Subject,
    kept: Option<Kept>,
}

impl State {
    pub(crate) fn new() -> Self {
        Self {
            seen: Seen::default(),
            subject: Subject::Nothing,
            kept: None,
        }
    }

    // What a line adds. After one that tells nothing no section and no curve is trusted either.
    pub(crate) fn line(&mut self, line: &[u8]) {
        if self.told_by(line).is_none() {
            self.seen.strange.more();
            self.forget();
        }
    }

    // A line's letter, its words and its end.
    fn told_by(&mut self, line: &[u8]) -> Option<()> {
        let [letter, bytes @ .., b'\n'] = line else {
            return None;
        };
        let words = Words::of_bytes(bytes)?;
        let words = words.as_slice();
        match (*letter, words) {
            (b'm', [positivity, q, m]) => {
                self.default(*positivity, *q, *m);
                Some(())
            }
            (b'r', [a, s]) => {
                self.root(*a, *s);
                Some(())
            }
            (b'f', []) => {
                self.forget();
                Some(())
            }
            (b's', _) => self.section(words),
            (b't', _) => self.record(words.as_array()?),
            (b'x', [x, value, primitive]) => self.query(*x, *value, *primitive),
            _ => self.of_curve(*letter, words),
        }
    }

    fn of_curve(&mut self, letter: u8, words: &[u64]) -> Option<()> {
        match (letter, words) {
            (b'c', _) => self.table(words),
            (b'g', _) => self.growth(words),
            (b'b', [refusal, sections]) => self.told(*refusal, *sections),
            (b'k', _) => self.knots(words.as_array()?),
            (b'e', _) => self.tail(words.as_array()?),
            (b'n', _) => self.nodes(words),
            (b'u', _) => self.column(words),
            (b'a', _) => self.curve_query(words.as_array()?),
            (b'p', _) => self.strip(words.as_array()?),
            _ => None,
        }
    }

    // No section and no curve is kept.
    fn forget(&mut self) {
        self.subject = Subject::Nothing;
        self.kept = None;
    }

    fn default(&mut self, positivity: u64, q: u64, m: u64) {
        self.seen.defaults.more();
        self.seen.judge(defaults::agrees(positivity, q, m));
    }

    fn root(&mut self, a: u64, s: u64) {
        self.seen.roots.more();
        self.seen.judge(roots::agrees(a, s));
    }

    fn section(&mut self, words: &[u64]) -> Option<()> {
        let record = Record::of_section(sections::of_words(words)?);
        self.seen.section(record.tag);
        self.subject = Subject::Made(record);
        Some(())
    }

    fn record(&mut self, words: &[u64; records::WORDS]) -> Option<()> {
        match self.subject {
            Subject::Made(record) => {
                self.seen.records.more();
                self.seen
                    .judge(records::agrees(record.tag, &record.slots, words));
                self.subject = Subject::ReadBack(record);
                Some(())
            }
            Subject::Curve(made, lines) => self.curve_record(made, lines, words),
            _ => None,
        }
    }

    fn query(&mut self, x: u64, value: u64, primitive: u64) -> Option<()> {
        let Subject::ReadBack(record) = self.subject else {
            return None;
        };
        self.seen.queries.more();
        self.seen
            .judge(queries::agrees(record, x, value, primitive));
        self.seen.not_finite.more_by(by_mark(value));
        self.seen.not_finite.more_by(by_mark(primitive));
        Some(())
    }

    fn outcome(&mut self, kept: Kept) {
        self.seen.curves(kept.grown).asked.more();
        self.subject = Subject::Outcome;
        self.kept = Some(kept);
    }

    // The table as a whole, and in sheets where it can be cut.
    fn table(&mut self, words: &[u64]) -> Option<()> {
        let table = Table::of_words(words)?;
        let kept = table.built();
        if let Some(cut) = cuts::of_table(&table, &kept) {
            if cut.refused {
                self.seen.sheets.refused.more();
            } else {
                self.seen.sheets.made.more();
            }
            self.seen.judge(cut.agrees);
        }
        self.outcome(kept);
        Some(())
    }

    fn growth(&mut self, words: &[u64]) -> Option<()> {
        let kept = growths::of_words(words, &self.kept)?;
        self.outcome(kept);
        Some(())
    }

    // A refusal leaves no curve to tell or to ask.
    fn told(&mut self, refusal: u64, sections: u64) -> Option<()> {
        let Subject::Outcome = self.subject else {
            return None;
        };
        let Kept { outcome, grown, .. } = self.kept?;
        let curves = self.seen.curves(grown);
        if refusal == 0 {
            curves.made.more();
        } else {
            curves.refused.more();
        }
        self.seen.judge(curves::went(outcome, refusal, sections));
        self.subject = match outcome {
            Ok(made) => Subject::Curve(made, 0),
            Err(_) => Subject::Nothing,
        };
        Some(())
    }

    fn curve_record(
        &mut self,
        made: Curve,
        lines: usize,
        words: &[u64; records::WORDS],
    ) -> Option<()> {
        if made.sections <= lines {
            return None;
        }
        let kept = self.kept.as_ref()?;
        self.seen.curves(kept.grown).records.more();
        self.seen.judge(curves::record_agrees(kept, lines, words));
        self.subject = Subject::Record(made, lines);
        Some(())
    }

    fn knots(&mut self, words: &[u64; 3]) -> Option<()> {
        let Subject::Record(made, lines) = self.subject else {
            return None;
        };
        // A record past the last is never told. With this, one more can be counted.
        if made.sections <= lines {
            return None;
        }
        let kept = self.kept.as_ref()?;
        self.seen.curves(kept.grown).knots.more();
        self.seen.judge(curves::knots_agree(kept, lines, words));
        self.subject = Subject::Curve(made, lines + 1);
        Some(())
    }

    fn tail(&mut self, words: &[u64; 3]) -> Option<()> {
        let Subject::Curve(made, lines) = self.subject else {
            return None;
        };
        if lines != made.sections {
            return None;
        }
        self.seen.judge(curves::tail_agrees(made, words));
        self.subject = Subject::Ended(made);
        Some(())
    }

    fn nodes(&mut self, words: &[u64]) -> Option<()> {
        let Subject::Ended(made) = self.subject else {
            return None;
        };
        let kept = self.kept.as_ref()?;
        if words.len() != kept.knots.as_slice().len() {
            return None;
        }
        self.seen
            .judge(curves::list_agrees(&kept.lent.nodes, words));
        self.subject = Subject::Noded(made);
        Some(())
    }

    // The column, and then the strips from knot to knot, which no line tells.
    fn column(&mut self, words: &[u64]) -> Option<()> {
        let Subject::Noded(made) = self.subject else {
            return None;
        };
        let kept = self.kept.as_ref()?;
        if words.len() != kept.knots.as_slice().len() {
            return None;
        }
        let run = strips::run_of(kept, made);
        let curves = self.seen.curves(kept.grown);
        curves.totals.more_by(words.len() as u64);
        curves.run.more_by(made.sections as u64);
        self.seen
            .judge(curves::list_agrees(&kept.lent.column, words));
        self.seen.judge(run.agrees);
        self.seen.runs_refused.more_where(run.refused);
        self.subject = Subject::Whole(made);
        Some(())
    }

    fn strip(&mut self, words: &[u64; 5]) -> Option<()> {
        let Subject::Whole(made) = self.subject else {
            return None;
        };
        let [allow, a, b, refusal, number] = *words;
        let asked = made.with_extrapolation(kept::flag(allow)?);
        let kept = self.kept.as_ref()?;
        let curves = self.seen.curves(kept.grown);
        curves.strips.more();
        curves
            .between
            .more_where(strips::places_of(kept, a, b).is_some());
        self.seen.judge(strips::agrees(kept, asked, a, b, Told { refusal, number }));
        self.seen.not_finite.more_by(by_mark(number));
        Some(())
    }

    fn curve_query(&mut self, words: &[u64; 5]) -> Option<()> {
        let Subject::Whole(made) = self.subject else {
            return None;
        };
        let [allow, x, refusal, value, primitive] = *words;
        let asked = made.with_extrapolation(kept::flag(allow)?);
        let kept = self.kept.as_ref()?;
        let price = Told {
            refusal,
            number: value,
        };
        let total = Told {
            refusal,
            number: primitive,
        };
        self.seen.curves(kept.grown).queries.more();
        self.seen
            .judge(curves::answers(kept, asked, x, price, total));
        self.seen.not_finite.more_by(by_mark(value));
        self.seen.not_finite.more_by(by_mark(primitive));
        Some(())
    }
}
