// The schedule of an assignment: how many numbers it has, and its numbers, written into a lent slice.
#![tactic(auto)]

ghost use Rattle.std.specs.Prelude.{◌≡◌, ℕ, ◌+◌, ◌%◌, ◌≤◌, ◌<◌, length};
ghost use Rattle.model.specs.Word.{bit};
ghost use Rattle.model.specs.Limits.{most_schedule_numbers};
ghost use Rattle.model.specs.Lists.{written_over};
ghost use Rattle.model.specs.CaseFile.{switch_count, case_of};
ghost use Rattle.model.specs.Line.{is_input};
ghost use Rattle.model.specs.Schedule.{schedule_size};
ghost use Rattle.laws.specs.Bounded.{Bounded};
ghost use Rattle.laws.specs.Written.{numbers_at, Put};
ghost use Rattle.schedule.specs.Schedules.{schedule_of, values_of, lengths_in, with_line, run_value, input_number, own_numbers};
ghost use Rattle.schedule.specs.Schedules.{FewCounted, ThreadToWrite, ThreadWritten, AllWritten};

use assignment::{block_of, value_of, was_run};
use case_file::{
    Case, Record, first_of, globals, kind_of, next_of, record_at, records, switches, threads,
};
use line::{guarded, put_local, target_name};
use model::{BLOCKS, Kind, LOCALS, THREADS};

// The size of a schedule of an accepted case: each of its records is one line, so no chain is followed.
pub fn schedule_size(case: &Case<'_>) -> usize
    ensures { Bounded (schedule_size (case_of case.now.bytes.now)) most_schedule_numbers result }
{
    let last = records(case.bytes);
    let mut n = switches(case.bytes) as usize + 1;
    for k in 1..last + 1 {
        n += inputs_of(kind_of(case.bytes, k));
    }
    n
}

// 1 for an input line.
fn inputs_of(kind: Kind) -> usize
    ensures { result ≡ bit (is_input kind) }
{
    usize::from(kind == Kind::Input)
}

// The schedule of an assignment, from the slice's start.
pub fn write_schedule(case: &Case<'_>, assignment: &[u16], schedule: &mut [u16])
    requires { schedule_size (case_of case.now.bytes.now) ≤ length schedule.old }
    ensures { schedule.new ≡ written_over (schedule_of case.now.bytes.now assignment.now) schedule.old }
{
    let last = switches(case.bytes) as usize;
    let counts = write_all_values(case, assignment, schedule, last + 1);
    write_lengths(case, schedule, &counts);
}

// The thread of the next block, where this block's is thread t of so many.
#[tactic(auto, using(crate::proofs::Counts::after_last, crate::proofs::Counts::after_other))]
fn next_thread(t: usize, many: usize) -> usize
    requires { t < many }
    ensures { (i : ℕ) → t ≡ i % many → result ≡ (i + 1) % many }
{
    let next = t + 1;
    if next == many { 0 } else { next }
}

// The lengths of the blocks, from the slice's start: block i's is the count of thread i modulo T.
fn write_lengths(case: &Case<'_>, schedule: &mut [u16], counts: &[[u16; BLOCKS]; THREADS])
    requires { switch_count case.now.bytes.now + 1 ≤ length schedule.old }
    ensures { schedule.new ≡ numbers_at schedule.old 0 (lengths_in case.now.bytes.now counts.now) }
{
    let many = threads(case.bytes) as usize;
    let last = switches(case.bytes) as usize;
    let mut t = 0;
    for i in 0..last + 1 {
        schedule[i] = counts[t][i];
        t = next_thread(t, many);
    }
}

// One more line of thread t is in a block; what is no block changes nothing. Lines that were not run are counted as of block n + 1,
// whose length is not written.
#[tactic(auto, unfolding(crate::specs::Schedules::with_line))]
fn count_line(counts: &mut [[u16; BLOCKS]; THREADS], t: usize, block: u16)
    requires { FewCounted counts.old t block }
    ensures { counts.new ≡ with_line counts.old t block }
{
    let i = block as usize;
    if i < BLOCKS {
        counts[t][i] += 1;
    }
}

// The value of a line with this block number where it was run, else 0.
fn run_value(case: &Case<'_>, block: u16, value: u16) -> u16
    ensures { result ≡ run_value case.now.bytes.now block value }
{
    if was_run(case, block) { value } else { 0 }
}

// An input line's number: the value that it was run with where its guard is true, else 0.
fn input_number(l: Record, locals: &[u16; LOCALS], value: u16) -> u16
    ensures { result ≡ input_number l locals.now value }
{
    if guarded(locals, l) { value } else { 0 }
}

// The number of a line, if it is an input, at a place; the place after it.
#[tactic(auto, using(laws::proofs::Writing::put_nothing, crate::proofs::Walks::put_one), unfolding(crate::specs::Schedules::own_numbers))]
fn put_number(
    schedule: &mut [u16],
    at: usize,
    l: Record,
    locals: &[u16; LOCALS],
    value: u16,
) -> usize
    requires { at + length (own_numbers l locals.now value) ≤ length schedule.old }
    ensures { Put (own_numbers l locals.now value) schedule.old at schedule.new result }
{
    match l.kind {
        Kind::Input => {
            schedule[at] = input_number(l, locals, value);
            at + 1
        }
        _ => at,
    }
}

// The values of thread t's input lines, from a place on; its lines are counted by block on the way. The place after them.
fn write_values(
    case: &Case<'_>,
    assignment: &[u16],
    schedule: &mut [u16],
    counts: &mut [[u16; BLOCKS]; THREADS],
    start: usize,
    t: u16,
) -> usize
    requires { ThreadToWrite case.now.bytes.now assignment.now t start schedule.old counts.old }
    ensures { ThreadWritten case.now.bytes.now assignment.now t start schedule.old schedule.new counts.old counts.new result }
{
    let many = globals(case.bytes) as usize;
    let mut locals = [0u16; LOCALS];
    let mut at = start;
    let mut k = first_of(case.bytes, t as usize);
    while k != 0 {
        let l = record_at(case.bytes, t, k);
        let number = k as u16;
        let block = block_of(assignment, number);
        let value = value_of(assignment, number);
        let given = run_value(case, block, value);
        at = put_number(schedule, at, l, &locals, given);
        put_local(&mut locals, target_name(many, l), value);
        count_line(counts, t as usize, block);
        k = next_of(case.bytes, k);
    }
    at
}

// The values of all input lines, by thread and then by chain, from a place on; how many lines of each thread each block has.
fn write_all_values(
    case: &Case<'_>,
    assignment: &[u16],
    schedule: &mut [u16],
    start: usize,
) -> [[u16; BLOCKS]; THREADS]
    requires { start + length (values_of case.now.bytes.now assignment.now) ≤ length schedule.old }
    ensures { AllWritten case.now.bytes.now assignment.now schedule.old start schedule.new result }
{
    let many = threads(case.bytes);
    let mut counts = [[0u16; BLOCKS]; THREADS];
    let mut at = start;
    for t in 0..many {
        at = write_values(case, assignment, schedule, &mut counts, at, t);
    }
    counts
}
