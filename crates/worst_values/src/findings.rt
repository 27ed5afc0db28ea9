ghost use Rattle.std.specs.Prelude.{◌≡◌, ℕ, ◌^◌, [], ◌++◌, ◌<◌, length, None, OnOk};
ghost use Rattle.port_call.specs.Cases.{CaseRecord};
ghost use Rattle.seq_report.specs.Cases.{outcome_in};
ghost use Rattle.worst_values.specs.Findings.{found_in};
ghost use Rattle.worst_values.specs.Rows.{row_of};
ghost use Rattle.worst_values.specs.Worst.{joined};

use crate::rows::Rows;
use crate::stretches::Stretches;
use criteria::Criterion;
use std::alloc::{AllocError, Global};

/// What is found over some lines.
#[derive(Debug, Drop)]
pub struct Findings {
    /// The worst value of each limit.
    pub rows: Rows,
    /// What each line, in their order, doesn't meet.
    pub unmet: Stretches,
}

impl Findings {
    /// Nothing yet.
    pub fn new(alloc: Global) -> Findings
        ensures length { length result.rows ≡ 14 }
        ensures none { (j : ℕ) → row_of result.rows j ≡ None }
        ensures unmet { result.unmet ≡ [] }
    {
        Findings {
            rows: Rows::new(),
            unmet: Stretches::new(alloc),
        }
    }

    /// The first condition that doesn't meet some criterion, with the first that it doesn't meet:
    /// of all conditions of a case, what the last line of its report says.
    pub fn first_failing(&self) -> Option<(u32, Criterion)>
        requires { length self.now.unmet < 2 ^ 32 }
        ensures { (case : CaseRecord) → self.now ≡ found_in case
            → result ≡ (outcome_in case).summary.first }
    {
        self.unmet.first_failing()
    }

    /// Joins what is found over the lines behind.
    pub fn join(&mut self, behind: &Findings) -> Result<(), AllocError>
        ensures length { length self.new.rows ≡ length self.old.rows }
        ensures rows { (j : ℕ) → j < 14 → row_of self.new.rows j
            ≡ joined (row_of self.old.rows j) (row_of behind.now.rows j) }
        ensures unmet { OnOk result (self.new.unmet ≡ self.old.unmet ++ behind.now.unmet) }
    {
        self.rows.join(&behind.rows);
        self.unmet.append(&behind.unmet)
    }
}
