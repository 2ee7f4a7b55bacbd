//! How far a call for records came, and what it still asks for.

ghost use Rattle.std.specs.Prelude.{◌≡◌, ◌+◌, ◌-◌, ◌^◌, ◌<◌, ◌≤◌, length};
ghost use Rattle.level.specs.Records.{none, joined, asked, walk, found};

use crate::asked::Asked;
use crate::course::Course;

/// How far a call for records came.
#[derive(Clone, Copy)]
pub struct Walk {
    /// How many levels it took.
    pub taken: usize,
    /// How many records it closed.
    pub closed: usize,
    /// Whether a record is open behind them.
    pub opened: bool,
    /// Whether it closed the last record that was asked for.
    // Kept: a flag, since the fields beside it say the same of a walk in either case.
    pub stopped: bool,
}

impl Walk {
    /// No level yet, with a record open or not.
    pub(crate) fn none(opened: bool) -> Walk
        ensures { result ≡ none opened }
    {
        Walk {
            taken: 0,
            closed: 0,
            opened,
            stopped: false,
        }
    }

    /// This walk, and the one behind it.
    pub(crate) fn then(self, next: Walk) -> Walk
        requires levels { self.taken + next.taken < 2 ^ 64 }
        requires records { self.closed + next.closed < 2 ^ 64 }
        ensures { result ≡ joined self next }
    {
        Walk {
            taken: self.taken + next.taken,
            closed: self.closed + next.closed,
            ..next
        }
    }

    /// What it makes of a call, which has all that was asked for or not.
    pub(crate) fn course(self, full: bool) -> Course
        ensures { result ≡ found self full }
    {
        Course {
            full,
            taken: self.taken,
            told: self.closed,
            opened: self.opened,
        }
    }
}

impl Asked {
    /// A call for so many records and levels: no level where it asks for no record.
    pub(crate) fn new(opened: bool, records: usize, levels: usize) -> Asked
        ensures opened { result.opened ≡ opened }
        ensures records { result.records ≡ records }
        ensures levels { result.levels ≡ asked records levels }
    {
        Asked {
            opened,
            records,
            levels: if records == 0 { 0 } else { levels },
        }
    }

    /// What is asked for behind a walk.
    pub(crate) fn behind(self, walk: Walk) -> Asked
        requires levels { walk.taken ≤ self.levels }
        requires records { walk.closed ≤ self.records }
        requires some { walk.taken < self.levels → walk.closed < self.records }
        ensures opened { result.opened ≡ walk.opened }
        ensures records { result.records ≡ self.records - walk.closed }
        ensures levels { result.levels ≡ self.levels - walk.taken }
    {
        Asked {
            opened: walk.opened,
            records: self.records - walk.closed,
            levels: self.levels - walk.taken,
        }
    }

    /// Walks over levels until the records are closed.
    #[tactic(auto, using(crate::proofs::Walks::at_start, crate::proofs::Walks::at_close, crate::proofs::Walks::at_go))]
    pub(crate) fn walk(self, levels: &[u32]) -> Walk
        requires { 0 < self.records }
        ensures is { result ≡ walk self.opened self.records levels.now }
        ensures most { result.taken ≤ length levels.now }
        ensures few { result.closed ≤ self.records }
    {
        let mut opened = self.opened;
        let mut closed = 0;
        // Kept: an index; over `levels.iter().enumerate()` the calls of the plain decoder took a fifth longer.
        for i in 0..levels.len() {
            if opened && levels[i] == 0 {
                closed += 1;
                if closed == self.records {
                    return Walk {
                        taken: i,
                        closed,
                        opened: false,
                        stopped: true,
                    };
                }
            }
            opened = true;
        }
        Walk {
            taken: levels.len(),
            closed,
            opened,
            stopped: false,
        }
    }
}
