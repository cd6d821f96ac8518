// A walk over a sheet's rows: what it has found so far, and which fault ends a call between two walks.
ghost use Rattle.std.specs.Prelude.{◌≡◌, ◌≤◌, Result};
ghost use Rattle.sheet.specs.Sheet.{most_rows};
ghost use Rattle.sheet.specs.Walk.{ready, noted, moved_to, warned, past, begun, surveyed, formed, without_fault, answer_of};

use crate::row::SheetAnswer;
use crate::seen::{MOST_ROWS, ROW_ANSWERS};
use reals::is_finite;

// A refusal's number, and the row at fault: for 2, 6 and 7 the topmost, else 0. The number is document 01's, by which faults are ordered
// (`tick_number`), and what `Answer`, `Length` and `SheetAnswer` carry.
#[derive(Clone, Copy)]
pub struct Fault {
    pub number: u64,
    pub row: usize,
}

// The fault so far, where the next row's words begin, and whether any row warned.
#[derive(Clone, Copy)]
pub struct Walk {
    pub fault: Option<Fault>,
    pub at: usize,
    pub warning: bool,
}

impl Walk {
    // Ahead of the first row.
    pub(crate) fn ready() -> Walk
        ensures { result ≡ ready }
    {
        Walk {
            fault: None,
            at: 0,
            warning: false,
        }
    }

    // A fault of this number in this row is noted, unless one of this number or a lower one was. Number 0 is none.
    pub(crate) fn noted(self, number: u64, row: usize) -> Walk
        ensures { result ≡ noted self number row }
    {
        if number == 0 {
            return self;
        }
        match self.fault {
            Some(fault) if fault.number <= number => self,
            _ => Walk {
                fault: Some(Fault { number, row }),
                ..self
            },
        }
    }

    // Where the next row's words end, of which there are n, if they lie in a region of so many.
    pub(crate) fn past(self, n: usize, words: usize) -> Option<usize>
        ensures { result ≡ past self.at n words }
    {
        self.at.checked_add(n).filter(|end| *end <= words)
    }

    // Past a row's words.
    pub(crate) fn moved_to(self, end: usize) -> Walk
        ensures { result ≡ moved_to self end }
    {
        Walk { at: end, ..self }
    }

    // With what a row's update said.
    pub(crate) fn warned(self, warning: bool) -> Walk
        ensures { result ≡ warned self warning }
    {
        Walk {
            warning: self.warning | warning,
            ..self
        }
    }

    // A fault that was found ends the call.
    pub(crate) fn without_fault(self) -> Result<(), Fault>
        ensures { result ≡ without_fault self }
    {
        match self.fault {
            Some(fault) => Err(fault),
            None => Ok(()),
        }
    }

    // After a survey: test 3 too.
    #[tactic(auto, unfolding(crate::specs::Walk::surveyed))]
    pub(crate) fn surveyed(self, words: usize) -> Result<(), Fault>
        ensures { result ≡ surveyed self words }
    {
        self.without_fault()?;
        if self.at != words {
            return Err(Fault { number: 3, row: 0 });
        }
        Ok(())
    }

    // After a tick's survey: tests 3, 4 and 5.
    #[tactic(auto, unfolding(crate::specs::Walk::surveyed, crate::specs::Walk::formed))]
    pub(crate) fn formed(
        self,
        rows: usize,
        words: usize,
        space: usize,
        time: f64,
    ) -> Result<(), Fault>
        requires { rows ≤ most_rows }
        ensures { result ≡ formed self rows words space time }
    {
        self.surveyed(words)?;
        if space != ROW_ANSWERS * rows {
            return Err(Fault { number: 4, row: 0 });
        }
        if !is_finite(time) {
            return Err(Fault { number: 5, row: 0 });
        }
        Ok(())
    }
}

// Test 1 on the number of rows.
#[tactic(auto, unfolding(crate::specs::Walk::begun))]
pub(crate) fn begun(rows: usize) -> Result<(), Fault>
    ensures { result ≡ begun rows }
{
    if rows == 0 || MOST_ROWS < rows {
        return Err(Fault { number: 1, row: 0 });
    }
    Ok(())
}

// What a call answers by how it ended: with a fault, or with whether any row warned.
impl From<Result<bool, Fault>> for SheetAnswer {
    ghost from_gives = { λ ended answer. answer ≡ answer_of ended };

    fn from(ended: Result<bool, Fault>) -> SheetAnswer {
        match ended {
            Ok(warning) => SheetAnswer {
                refusal: 0,
                row: 0,
                warning,
            },
            Err(fault) => SheetAnswer {
                refusal: fault.number,
                row: fault.row,
                warning: false,
            },
        }
    }
}
