ghost use Rattle.std.specs.Prelude.{◌≡◌, ◌≢◌, ℕ, ◌<◌, length, option_map, None, true};
ghost use Rattle.worst_values.specs.Rows.{is_marked, row_of};
ghost use Rattle.worst_values.specs.Worst.{candidate_of, joined};

use crate::row::Row;
use crate::values::Value;
use std::marker::Model;

/// How many rows the table of limits has.
const ROWS: usize = 14;

/// The worst value of each row of the table of limits, where one was found.
#[derive(Debug, Drop)]
pub struct Rows {
    rows: [Row; ROWS],
}

impl Model for Rows {
    ghost use Rattle.std.specs.Prelude.{List, map, Option, option_map};
    ghost use Rattle.worst_values.specs.Worst.{Candidate, candidate_of};

    ghost Value = { List (Option Candidate) };

    ghost view = { λ r. map (λ row. option_map candidate_of row.worst) r.rows };
}

impl Rows {
    /// No value yet.
    pub(crate) fn new() -> Rows
        ensures length { length result ≡ 14 }
        ensures none { (j : ℕ) → row_of result j ≡ None }
    {
        Rows {
            rows: [Row::new(); ROWS],
        }
    }

    /// The worst value of a row.
    pub fn get(&self, row: usize) -> Option<Value>
        requires { row < 14 }
        ensures { option_map candidate_of result ≡ row_of self.now row }
    {
        self.rows[row].worst
    }

    /// A mark that the value of a row is worse than, where there's one.
    #[inline(always)]
    pub(crate) fn mark(&self, row: usize) -> Option<i32>
        requires { row < 14 }
        ensures { is_marked (row_of self.now row) result ≡ true }
    {
        self.rows[row].mark
    }

    /// Joins to a row what is found behind.
    pub(crate) fn note(&mut self, row: usize, found: Option<Value>)
        requires { row < 14 }
        ensures length { length self.new ≡ length self.old }
        ensures here { row_of self.new row
            ≡ joined (row_of self.old row) (option_map candidate_of found) }
        ensures others { (j : ℕ) → j ≢ row → row_of self.new j ≡ row_of self.old j }
    {
        let Some(found) = found else {
            return;
        };
        if !self.rows[row].is_below(&found) {
            self.rows[row] = self.rows[row].with_value(found);
        }
    }

    /// Joins to each row that of the lines behind.
    pub(crate) fn join(&mut self, behind: &Rows)
        ensures length { length self.new ≡ length self.old }
        ensures each { (j : ℕ) → j < 14
            → row_of self.new j ≡ joined (row_of self.old j) (row_of behind.now j) }
    {
        for row in 0..ROWS {
            self.note(row, behind.get(row));
        }
    }
}
