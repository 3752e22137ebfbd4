// The text of a case in a lent slice, and how long it is. One writer serves twice: into no bytes at all, which measures the text, and
// then into the slice, so that a slice that is too short stays as it is.
#![tactic(auto)]

ghost use Rattle.std.specs.Prelude.{◌≡◌, leb, length};
ghost use Rattle.model.specs.CaseFile.{case_of};
ghost use Rattle.smt.specs.Spelling.{formula_text, assertion, assertion_lines};
ghost use Rattle.script.specs.Text.{smt_text, measured, spelled, spelled_into};
ghost use Rattle.spell.specs.Spelt.{Puts};
ghost use Rattle.rows.specs.Rows.{as_row};
ghost use Rattle.walk_text.specs.Previous.{HasTable};
ghost use Rattle.smt_text.specs.Rows.{row_assertion, RowKnown};
ghost use Rattle.smt_text.specs.Script.{table_assertions, ScriptHanded, TextGiven};

use case_file::Case;
use encoder::{MOST_NUMBERS, encode};
use goal_text::put_goal;
use line_text::{put_five, put_four};
use line_threads::{Tabled, threads_of};
use model::{Copies, Refusal, TableSize};
use rows::Constraint;
use smt_parts::{frame_of, put_declarations, put_eight, put_last, put_one, put_three};
use spell::Writer;
use walk_text::{previous_copies, put_walk};

// No text is longer.
pub const MOST_BYTES: usize = 2000000;

// How many bytes the text of a case has.
pub fn smt_length(case: &[u8]) -> Result<usize, Refusal>
    ensures { result ≡ measured case.now }
{
    let mut table = [0u16; MOST_NUMBERS];
    let size = encode(case, &mut table)?;
    Ok(script_length(&Case { bytes: case }, &table, size))
}

// The text of a case, from the slice's start. Refusal 10 where the slice is shorter. The table always fits its array (`table_numbers_lem`
// of laws), so the encoder refuses only what the case is refused for.
pub fn smt_text(case: &[u8], text: &mut [u8]) -> Result<usize, Refusal>
    ensures value { result ≡ spelled case.now (length text.old) }
    ensures text_after { text.new ≡ spelled_into case.now text.old }
{
    let mut table = [0u16; MOST_NUMBERS];
    let size = encode(case, &mut table)?;
    put_script(text, &Case { bytes: case }, &table, size)
}

// The text of an accepted case where it fits; refusal 10 where it does not.
fn put_script(
    text: &mut [u8],
    case: &Case<'_>,
    table: &[u16],
    size: TableSize,
) -> Result<usize, Refusal>
    requires { ScriptHanded case.now.bytes.now table.now size.constraints size.variables }
    ensures { TextGiven case.now.bytes.now text.old text.new result }
{
    if !fits(text.len(), case, table, size) {
        return Err(Refusal::Short);
    }
    let mut w = Writer { text, at: 0 };
    write_script(&mut w, case, table, size);
    Ok(w.at)
}

// Whether the text of an accepted case has at most so many bytes. It is not measured where every text has.
fn fits(room: usize, case: &Case<'_>, table: &[u16], size: TableSize) -> bool
    requires { ScriptHanded case.now.bytes.now table.now size.constraints size.variables }
    ensures { result ≡ leb (length (smt_text case.now.bytes.now)) room }
{
    if MOST_BYTES <= room {
        return true;
    }
    script_length(case, table, size) <= room
}

// How many bytes the text of an accepted case has.
fn script_length(case: &Case<'_>, table: &[u16], size: TableSize) -> usize
    requires { ScriptHanded case.now.bytes.now table.now size.constraints size.variables }
    ensures { result ≡ length (smt_text case.now.bytes.now) }
{
    let mut w = Writer {
        text: &mut [],
        at: 0,
    };
    write_script(&mut w, case, table, size);
    w.at
}

// The text of an accepted case, from its table, which has that size.
fn write_script(w: &mut Writer<'_>, case: &Case<'_>, table: &[u16], size: TableSize)
    requires { ScriptHanded case.now.bytes.now table.now size.constraints size.variables }
    ensures { Puts (smt_text case.now.bytes.now) w.old w.new }
{
    w.put(b"(set-logic QF_BV)\n");
    put_declarations(w, size.variables);
    put_assertions(w, case, table, size.constraints);
    w.put(b"(check-sat)\n");
}

// The assertions of so many constraints of the table, which are all.
fn put_assertions(w: &mut Writer<'_>, case: &Case<'_>, table: &[u16], count: u16)
    requires { HasTable (case_of case.now.bytes.now) table.now count }
    ensures { Puts (assertion_lines (table_assertions case.now.bytes.now)) w.old w.new }
{
    let previous = previous_copies(table, count);
    let threads = threads_of(table, count);
    let tabled = Tabled {
        case: *case,
        frame: frame_of(case),
        table,
        count,
        threads: &threads,
    };
    for j in 0..count {
        put_assertion(w, &tabled, &previous, tabled.row(j));
    }
}

// The assertion of a row, on a line of its own.
fn put_assertion(w: &mut Writer<'_>, tabled: &Tabled<'_>, previous: &[u16], row: Constraint)
    requires { RowKnown tabled.now.case.bytes.now previous.now (as_row row) }
    ensures { Puts (assertion (row_assertion tabled.now.case.bytes.now (as_row row))) w.old w.new }
{
    w.put(b"(assert ");
    put_row(w, tabled, previous, row);
    w.put(b")\n");
}

// The assertion of a row, by its kind, which is one of eight.
fn put_row(w: &mut Writer<'_>, tabled: &Tabled<'_>, previous: &[u16], row: Constraint)
    requires { RowKnown tabled.now.case.bytes.now previous.now (as_row row) }
    ensures { Puts (formula_text (row_assertion tabled.now.case.bytes.now (as_row row))) w.old w.new }
{
    let frame = tabled.frame;
    let kind = row.kind;
    match kind {
        1 => put_one(w, row.one, row.two),
        2 => put_last(w, frame.shape, row.one),
        3 => put_three(w, frame.shape, row.one, row.two, row.three),
        4 => {
            let l = tabled.line(row.one);
            let copies = Copies {
                guard: row.two,
                a: row.three,
                b: row.four,
                target: row.five,
            };
            put_four(w, frame, l, row.one, copies);
        }
        5 => {
            let l = tabled.line(row.one);
            put_five(w, frame, l, row.one, row.two, row.three);
        }
        6 => put_walk(w, frame, previous, row.two, row.one, row.three),
        7 => put_goal(w, tabled),
        8 => put_eight(w, frame.shape, row.one, row.two),
        _ => w.put(b"false"),
    }
}
