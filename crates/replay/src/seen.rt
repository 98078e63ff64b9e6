// What a file of answers has shown so far.
ghost use Rattle.std.specs.Prelude.{◌<◌};

// The nine kinds, of which two are split or not.
pub(crate) const KINDS: usize = 11;

// A count, which stays where there is no room for more.
#[derive(Clone, Copy, Default)]
pub(crate) struct Count(pub u64);

impl Count {
    pub(crate) fn more(&mut self) {
        self.more_by(1);
    }

    pub(crate) fn more_by(&mut self, many: u64) {
        self.0 = self.0.saturating_add(many);
    }

    pub(crate) fn more_where(&mut self, holds: bool) {
        self.more_by(u64::from(holds));
    }
}

// What was seen of the curves that were built, or of those that were grown: `totals` are the entries of their columns, `between` the strips that
// were priced by the places of their ends too, and `run` those that were priced in a run.
#[derive(Clone, Copy, Default)]
pub(crate) struct Curves {
    pub asked: Count,
    pub refused: Count,
    pub made: Count,
    pub records: Count,
    pub knots: Count,
    pub totals: Count,
    pub queries: Count,
    pub strips: Count,
    pub between: Count,
    pub run: Count,
}

// What was seen of the tables that were built in sheets too.
#[derive(Clone, Copy, Default)]
pub(crate) struct Sheets {
    pub made: Count,
    pub refused: Count,
}

// `not_finite` are the values, primitives and strips of the original that are not finite, which are compared by the mark, and `runs_refused` the runs in
// which one strip is not, which are refused whole.
#[derive(Clone, Copy, Default)]
pub(crate) struct Seen {
    pub defaults: Count,
    pub roots: Count,
    pub sections: [Count; KINDS],
    pub records: Count,
    pub queries: Count,
    pub built: Curves,
    pub grown: Curves,
    pub sheets: Sheets,
    pub not_finite: Count,
    pub runs_refused: Count,
    pub strange: Count,
    pub mismatches: Count,
}

// Where a kind is counted, by its tag, in the order in which they are printed.
fn kind_of(tag: u16) -> usize
    ensures { result < 11 }
{
    match tag {
        0x0100 => 0,
        0x0200 => 1,
        0x0300 => 2,
        0x0400 => 3,
        0x0500 => 4,
        0x0600 => 5,
        0x0680 => 6,
        0x2000 => 7,
        0x4000 => 8,
        0x5000 => 9,
        _ => 10,
    }
}

impl Seen {
    pub(crate) fn section(&mut self, tag: u16) {
        self.sections[kind_of(tag)].more();
    }

    // What was seen of grown curves, or of built ones.
    pub(crate) fn curves(&mut self, grown: bool) -> &mut Curves {
        if grown {
            &mut self.grown
        } else {
            &mut self.built
        }
    }

    // Whether a line is as ours.
    pub(crate) fn judge(&mut self, agrees: bool) {
        self.mismatches.more_where(!agrees);
    }
}
