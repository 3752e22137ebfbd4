// The encoder: the table of a case's constraints. The latest copy of each name is known for every thread, by one forward walk over
// each thread's lines.
#![tactic(auto)]

ghost use Rattle.std.specs.Prelude.{Ok, ◌≡◌, ◌+◌, ◌≤◌, ◌<◌, length};
ghost use Rattle.model.specs.CaseFile.{thread_count, case_of};
ghost use Rattle.model.specs.Lists.{written_over};
ghost use Rattle.model.specs.Copies.{nothing_held};
ghost use Rattle.model.specs.Table as model;
ghost use Rattle.model.specs.Accept.{verdict};
ghost use Rattle.model.specs.Answers.{encoded, encoded_into};
ghost use Rattle.laws.specs.Accepted.{thread_lines};
ghost use Rattle.laws.specs.Written.{Put};
ghost use Rattle.encoder.specs.Firsts.{invisible_first, invisible_firsts};
ghost use Rattle.encoder.specs.Parts.{order_numbers, all_order_numbers, value_numbers, all_value_numbers, item_numbers, all_item_numbers, run_numbers, table_numbers};
ghost use Rattle.encoder.specs.Writers.{CopiesRoom, PutThread, PutCopies, Answered};

use accept::accept;
use case_file::{
    Case, first_of, globals, kind_of, link_at, next_of, record_at, records, switches, threads,
};
use copies::{copy_of, take_line};
use line::{order_rows, stays, value_rows};
use model::{
    ITEMS, LOCALS, MOST_LINES, MOST_RECORDS, MOST_SWITCHES, NAMES, Refusal, THREADS, TableSize,
};
use rows::ROW;

// The largest table has four constraints for each record, one more for each but its thread's first, one for each block value and the
// goal, of six numbers each.
pub const MOST_NUMBERS: usize = ROW
    * (4 * MOST_RECORDS + THREADS * (MOST_LINES - 1) + MOST_SWITCHES as usize * ITEMS + 1);

// The table of a case: refusals 1 to 9, then 10; else its constraints, six numbers each, from the slice's start.
#[tactic(auto, using(laws::proofs::Accepted::accepted_of), unfolding(model::specs::Answers::on_case, model::specs::Answers::encoded, model::specs::Answers::encoded_into))]
pub fn encode(case: &[u8], table: &mut [u16]) -> Result<TableSize, Refusal>
    ensures value { result ≡ encoded case.now (length table.old) }
    ensures table_after { table.new ≡ encoded_into case.now table.old }
{
    accept(case)?;
    encode_accepted(&Case { bytes: case }, table)
}

// The table of an accepted case where it fits; refusal 10 where it does not.
#[tactic(auto, using(laws::proofs::Sizes::table_rows, laws::proofs::Sizes::six_a_row), unfolding(model::specs::Answers::on_case, model::specs::Answers::encoded, model::specs::Answers::encoded_into, crate::specs::Parts::table_numbers))]
fn encode_accepted(case: &Case<'_>, table: &mut [u16]) -> Result<TableSize, Refusal>
    requires { verdict case.now.bytes.now ≡ Ok tt }
    ensures { Answered case.now.bytes.now table.old table.new result }
{
    let count = constraint_count(case);
    Refusal::Short.unless(ROW * count <= table.len())?;
    write_table(case, table);
    Ok(TableSize {
        constraints: count as u16,
        variables: case.variables() as u16,
    })
}

// How many constraints the table of an accepted case has: its records' rows, but for the 8s that first lines would have, the 6s and
// the 7.
fn constraint_count(case: &Case<'_>) -> usize
    ensures { result ≡ length (model.table (case_of case.now.bytes.now)) }
{
    let last = records(case.bytes);
    let mut n = 0;
    for k in 1..last + 1 {
        let kind = kind_of(case.bytes, k);
        n += order_rows(false, kind) + value_rows(kind);
    }
    n - invisible_firsts(case) + case.block_values() + 1
}

// How many threads have an invisible first line.
fn invisible_firsts(case: &Case<'_>) -> usize
    ensures { result ≡ invisible_firsts (case_of case.now.bytes.now).threads }
{
    let threads = threads(case.bytes) as usize;
    let mut n = 0;
    for counted in 0..threads {
        n += usize::from(invisible_first(case, counted));
    }
    n
}

// Whether thread t has one.
fn invisible_first(case: &Case<'_>, t: usize) -> bool
    requires { t < thread_count case.now.bytes.now }
    ensures { result ≡ invisible_first (thread_lines case.now.bytes.now t) }
{
    let k = first_of(case.bytes, t);
    k != 0 && stays(false, kind_of(case.bytes, k))
}

// The table of an accepted case, from the slice's start: its rows without the goal, and the goal.
#[tactic(auto, using(crate::proofs::Parts::table_size))]
fn write_table(case: &Case<'_>, table: &mut [u16])
    requires { length (table_numbers case.now.bytes.now) ≤ length table.old }
    ensures { table.new ≡ written_over (table_numbers case.now.bytes.now) table.old }
{
    let at = write_run(case, table);
    let goal = rows::goal_row();
    rows::put_row(table, at, goal);
}

// The rows but for the goal, from the slice's start; the place after them.
#[tactic(auto, using(crate::proofs::Parts::run_size, copies::proofs::Held::held_start))]
fn write_run(case: &Case<'_>, table: &mut [u16]) -> usize
    requires { length (run_numbers case.now.bytes.now) ≤ length table.old }
    ensures { Put (run_numbers case.now.bytes.now) table.old 0 table.new result }
{
    let mut latest = [[0u16; NAMES]; THREADS];
    let orders = write_orders(case, table);
    let values = write_all_values(case, table, orders, &mut latest);
    write_blocks(case, table, values, &latest)
}

// The 3s, 8s, 1s and 2s of all threads, from the slice's start; the place after them.
fn write_orders(case: &Case<'_>, table: &mut [u16]) -> usize
    requires { length (all_order_numbers case.now.bytes.now) ≤ length table.old }
    ensures { Put (all_order_numbers case.now.bytes.now) table.old 0 table.new result }
{
    let threads = threads(case.bytes) as usize;
    let mut at = 0;
    for t in 0..threads {
        at = write_order(case, table, at, t);
    }
    at
}

// Those of thread t, from a place on; the place after them.
fn write_order(case: &Case<'_>, table: &mut [u16], start: usize, t: usize) -> usize
    requires thread { t < thread_count case.now.bytes.now }
    requires room { start + length (order_numbers case.now.bytes.now t) ≤ length table.old }
    ensures { Put (order_numbers case.now.bytes.now t) table.old start table.new result }
{
    let threads = threads(case.bytes);
    let last = switches(case.bytes);
    let mut at = start;
    let mut previous = 0;
    let mut k = first_of(case.bytes, t) as u16;
    while k != 0 {
        let link = link_at(case.bytes, previous, k);
        at = rows::put_order(table, at, link, threads, last, t as u16);
        previous = k;
        k = link.next;
    }
    at
}

// The 4s and 5s of all threads, from a place on; the place after them. The latest copies are then those after all lines.
fn write_all_values(
    case: &Case<'_>,
    table: &mut [u16],
    start: usize,
    latest: &mut [[u16; NAMES]; THREADS],
) -> usize
    requires { CopiesRoom case.now.bytes.now latest.old 0 (start + length (all_value_numbers case.now.bytes.now)) table.old }
    ensures { PutCopies case.now.bytes.now (all_value_numbers case.now.bytes.now) table.old start table.new result latest.new (thread_count case.now.bytes.now) }
{
    let threads = threads(case.bytes) as usize;
    let mut at = start;
    for thread in 0..threads {
        at = write_values(case, table, at, thread, &mut latest[thread]);
    }
    at
}

// Those of thread t, from a place on; the place after them. Each line is taken once, and gives its copies.
fn write_values(
    case: &Case<'_>,
    table: &mut [u16],
    start: usize,
    t: usize,
    held: &mut [u16; NAMES],
) -> usize
    requires thread { t < thread_count case.now.bytes.now }
    requires nothing { held.old ≡ nothing_held }
    requires room { start + length (value_numbers case.now.bytes.now t) ≤ length table.old }
    ensures { PutThread case.now.bytes.now t table.old start table.new result held.new }
{
    let globals = globals(case.bytes) as usize;
    let mut at = start;
    let mut k = first_of(case.bytes, t);
    while k != 0 {
        let l = record_at(case.bytes, t as u16, k);
        let line = k as u16;
        let copies = take_line(held, globals, l, line);
        rows::put_values(table, at, line, l.kind, copies);
        at += ROW * value_rows(l.kind);
        k = next_of(case.bytes, k);
    }
    at
}

// The 6s, from a place on; the place after them.
fn write_blocks(
    case: &Case<'_>,
    table: &mut [u16],
    start: usize,
    latest: &[[u16; NAMES]; THREADS],
) -> usize
    requires { CopiesRoom case.now.bytes.now latest.now (thread_count case.now.bytes.now) (start + length (all_item_numbers case.now.bytes.now)) table.old }
    ensures { Put (all_item_numbers case.now.bytes.now) table.old start table.new result }
{
    let last = switches(case.bytes);
    let mut at = start;
    for i in 0..last {
        at = write_items(case, table, at, i, latest);
    }
    at
}

// Those of block i, from a place on; the place after them.
fn write_items(
    case: &Case<'_>,
    table: &mut [u16],
    start: usize,
    i: u16,
    latest: &[[u16; NAMES]; THREADS],
) -> usize
    requires { CopiesRoom case.now.bytes.now latest.now (thread_count case.now.bytes.now) (start + length (item_numbers case.now.bytes.now i)) table.old }
    ensures { Put (item_numbers case.now.bytes.now i) table.old start table.new result }
{
    let t = i as usize % threads(case.bytes) as usize;
    let items = case.items();
    let mut at = start;
    for g in 0..items {
        let copy = copy_of(&latest[t], LOCALS + g);
        let w = rows::item_row(g as u16, i, copy);
        rows::put_row(table, at, w);
        at += ROW;
    }
    at
}
