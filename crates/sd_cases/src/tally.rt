//! How many cases there were, and how many of them are right.

/// What a case came to.
#[derive(Clone, Copy)]
pub enum Verdict {
    AsExpected,
    DiffersAsItShould,
    Wrong,
}

/// Counts of cases. At its last value a count stands.
#[derive(Drop)]
pub struct Tally {
    pub cases: u64,
    pub differing: u64,
    pub wrong: u64,
}

impl Tally {
    /// No case yet.
    pub fn new() -> Tally {
        Tally {
            cases: 0,
            differing: 0,
            wrong: 0,
        }
    }

    /// Counts a case by whether its expectation is wrong on purpose, and whether nothing differs.
    pub fn count(&mut self, differs: bool, same: bool) -> Verdict {
        self.cases = self.cases.saturating_add(1);
        if differs == same {
            self.count_wrong();
            return Verdict::Wrong;
        }
        if differs {
            self.differing = self.differing.saturating_add(1);
            return Verdict::DiffersAsItShould;
        }
        Verdict::AsExpected
    }

    /// Counts a case or a line that is wrong.
    pub fn count_wrong(&mut self) {
        self.wrong = self.wrong.saturating_add(1);
    }
}
