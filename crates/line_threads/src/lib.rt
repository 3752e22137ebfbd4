// An accepted case with its table: the rows of the table, and the lines of the case. A line is its record with the thread that the table
// has for it.
#![tactic(auto)]

ghost use Rattle.std.specs.Prelude.{◌≡◌, ℕ, List};
ghost use Rattle.model.specs.CaseFile.{case_of, line_at, records};
ghost use Rattle.laws.specs.Accepted.{Accepted};
ghost use Rattle.laws.specs.RecordNumber.{RecordNumber};
ghost use Rattle.case_file.specs.Records.{as_line};
ghost use Rattle.rows.specs.Rows.{as_row};
ghost use Rattle.walk_text.specs.Previous.{HasTable};
ghost use Rattle.line_threads.specs.Threads.{HasThreads, LineThere, CaseHanded, row_at};

use case_file::{Case, Record, record_at};
use linked::Frame;
use model::RECORD_PLACES;
use numbers::at;
use rows::{Constraint, ROW};
use walk_text::note_rows;

// The kind of the rows that have a line's thread, and its place in them.
const THREAD_ROW: u16 = 3;

const THREAD: u16 = 3;

// A case, its frame, its table, which has so many rows, and its lines' threads.
#[derive(Clone, Copy)]
pub struct Tabled<'a> {
    pub case: Case<'a>,
    pub frame: Frame,
    pub table: &'a [u16],
    pub count: u16,
    pub threads: &'a [u16],
    pub ghost handed: { CaseHanded case.bytes.now frame table.now count threads.now },
}

// For each line of a case, by record number, its thread: from the table that the encoder has written, which has so many rows.
pub fn threads_of(table: &[u16], count: u16) -> [u16; RECORD_PLACES]
    ensures { (bytes : List ℕ) → Accepted bytes → HasTable (case_of bytes) table.now count → HasThreads (case_of bytes) result }
{
    note_rows(table, count, THREAD_ROW, THREAD)
}

// Row j of the table. Past the table's end there are zeros, as `at` has them: a pattern over `get(from..from + ROW)` would need an arm of its
// own for them.
pub fn row_at(table: &[u16], j: u16) -> Constraint
    ensures { as_row result ≡ row_at table.now j }
{
    let from = ROW * j as usize;
    Constraint {
        kind: at(table, from),
        one: at(table, from + 1),
        two: at(table, from + 2),
        three: at(table, from + 3),
        four: at(table, from + 4),
        five: at(table, from + 5),
    }
}

// The record of line k, by the thread that it is in.
pub fn line_of(case: &[u8], threads: &[u16], k: u16) -> Record
    requires { LineThere case.now threads.now k }
    ensures { as_line result k ≡ line_at (case_of case.now) k }
{
    let line = k as usize;
    record_at(case, at(threads, line), line)
}

impl Tabled<'_> {
    // Row j of its table.
    pub fn row(&self, j: u16) -> Constraint
        ensures { as_row result ≡ row_at self.now.table.now j }
    {
        row_at(self.table, j)
    }

    // The record of its line k.
    pub fn line(&self, k: u16) -> Record
        requires { RecordNumber (records self.now.case.bytes.now) k }
        ensures { as_line result k ≡ line_at (case_of self.now.case.bytes.now) k }
    {
        line_of(self.case.bytes, self.threads, k)
    }
}
