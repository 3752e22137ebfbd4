// Constraints 4 and 5: the value of each line, and what an assume or a lock demands. What a line reads, and which copies there are,
// is kept along the lines of each thread.
#![tactic(auto)]

ghost use Rattle.std.specs.Prelude.{◌≡◌, suc, ◌≤◌, ◌<◌, true, false};
ghost use Rattle.model.specs.Limits.{most_threads, most_constraints, record_places};
ghost use Rattle.model.specs.CaseFile.{switch_count};
ghost use Rattle.value_check.specs.Asking.{AskedWhere, AskedUnrun, AskedOf, failing_asked};
ghost use Rattle.value_check.specs.Walked.{CopyNoted, Entered, ThreadToAsk, ThreadAsked, AllToAsk, AllAsked};

use assignment::{block_of, start_of_block, value_of, was_run};
use case_file::{Case, Record, first_of, next_of, record_at, threads};
use copies::take_copy;
use line::{Counts, Seen, value_rows};
use model::{ITEMS, Kind, LOCALS, NAMES, RECORD_PLACES, THREADS};
use search::Failed;

// After a walk whose constraints all hold: the number of the next constraint, and the record of the first line that violates, 0 if
// none does. It is no Option, since the model's definition `noted`, which may not change, has 0 for none, and so has line::noted.
#[derive(Clone, Copy)]
pub struct Walk {
    pub next: u16,
    pub broken: u16,
}

// What the constraints of a line ask, where it has a value: the value that its 4 asks for, whether its 5 holds or it has none,
// whether the line violates, and the name of its target.
#[derive(Clone, Copy)]
pub struct Asked {
    pub value: u16,
    pub met: bool,
    pub breaks: bool,
    pub name: usize,
}

// The value of an assert or assume that its guard leaves out, and the value that a 5 asks of an assume.
const LEFT_OUT: u16 = 1;

const ASSUMED: u16 = 1;

// A 4 alone, of a line that does not violate.
fn four(value: u16, name: usize) -> Asked
    ensures { result ≡ record { value = value; met = true; breaks = false; name = name } }
{
    Asked {
        value,
        met: true,
        breaks: false,
        name,
    }
}

// A line with a true guard, by its kind: compute, store, load, input, assert, assume, lock, unlock.
fn asked_in(seen: &Seen<'_>, l: Record, value: u16) -> Asked
    requires { l.thread < most_threads }
    ensures { AskedWhere true seen.now l value result }
{
    let target = l.target as usize;
    match l.kind {
        Kind::Compute => four(
            line::expression_of(seen.locals, l),
            line::local_name(l.target),
        ),
        Kind::Store => four(line::expression_of(seen.locals, l), LOCALS + target),
        Kind::Load => four(seen.item(l.a as usize), line::local_name(l.target)),
        Kind::Input => four(value, line::local_name(l.target)),
        Kind::Assert => Asked {
            value: line::bit_of(line::expression_of(seen.locals, l) != 0),
            met: true,
            breaks: seen.breaks(l, value),
            name: NAMES,
        },
        Kind::Assume => Asked {
            value: line::bit_of(line::expression_of(seen.locals, l) != 0),
            met: value == ASSUMED,
            breaks: false,
            name: NAMES,
        },
        Kind::Lock => Asked {
            value: line::holder(l),
            met: seen.item(seen.counts.globals + target) == 0,
            breaks: false,
            name: LOCALS + (seen.counts.globals + target),
        },
        Kind::Unlock => {
            let stranger = seen.breaks(l, value);
            Asked {
                value: 0,
                met: true,
                breaks: stranger,
                name: LOCALS + (seen.counts.globals + target),
            }
        }
    }
}

// A line with a false guard: its target keeps its value, and it does not violate.
fn asked_out(seen: &Seen<'_>, l: Record, value: u16) -> Asked
    ensures { AskedWhere false seen.now l value result }
{
    match l.kind {
        Kind::Compute | Kind::Load | Kind::Input => four(
            line::local_at(seen.locals, l.target),
            line::local_name(l.target),
        ),
        Kind::Store => four(seen.item(l.target as usize), LOCALS + l.target as usize),
        Kind::Assert => four(LEFT_OUT, NAMES),
        Kind::Assume => Asked {
            value: LEFT_OUT,
            met: value == ASSUMED,
            breaks: false,
            name: NAMES,
        },
        Kind::Lock | Kind::Unlock => {
            let g = seen.counts.globals + l.target as usize;
            four(seen.item(g), LOCALS + g)
        }
    }
}

// A line that was not run: nothing is read at it, and it does not violate.
fn asked_unrun(counts: Counts, l: Record) -> Asked
    ensures { AskedUnrun counts l result }
{
    four(
        line::unrun_value(l.kind),
        line::target_name(counts.globals, l),
    )
}

// A line, by whether it was run, and by its guard.
fn asked_of(seen: &Seen<'_>, l: Record, value: u16, run: bool) -> Asked
    requires { l.thread < most_threads }
    ensures { AskedOf run seen.now l value result }
{
    if !run {
        return asked_unrun(seen.counts, l);
    }
    if line::guarded(seen.locals, l) {
        return asked_in(seen, l, value);
    }
    asked_out(seen, l, value)
}

// The first of a line's 4 and 5 that fails, its 4 having number `at`, if one does.
#[tactic(auto, unfolding(crate::specs::Asking::failing_asked))]
fn line_failing(at: u16, asked: Asked, value: u16) -> Result<(), Failed>
    requires { at < most_constraints }
    ensures { result ≡ failing_asked at asked value }
{
    if value != asked.value {
        return Err(Failed { constraint: at });
    }
    if asked.met {
        return Ok(());
    }
    Err(Failed { constraint: at + 1 })
}

// Line k is taken, whose target has this name, and the copy before it is noted for it.
fn note_copy(previous: &mut [u16; RECORD_PLACES], held: &mut [u16; NAMES], name: usize, k: u16)
    requires { k < record_places }
    ensures { CopyNoted name k previous.old held.old previous.new held.new }
{
    let own = k as usize;
    previous[own] = take_copy(held, name, k);
}

// Whether a line with block number i, at most n + 1, was run. If so, its thread goes on in block i: the items' values stay where it is
// the same block, and are those that another block starts from.
#[tactic(auto, using(laws::proofs::Unrun::within_blocks_of_run))]
fn enter_block(
    case: &Case<'_>,
    assignment: &[u16],
    items: &mut [u16; ITEMS],
    block: u16,
    i: u16,
) -> bool
    requires { i ≤ suc (switch_count case.now.bytes.now) }
    ensures { Entered case.now.bytes.now assignment.now block i items.old items.new result }
{
    if !was_run(case, i) {
        return false;
    }
    if i == block {
        return true;
    }
    *items = start_of_block(case, assignment, i);
    true
}

// The 4s and 5s of thread t, after a walk over those of the threads before it. The values of its locals, and of the items in its
// block, are kept along its chain; each line is taken once, and the copy before it is noted for its record.
fn thread_values(
    case: &Case<'_>,
    assignment: &[u16],
    previous: &mut [u16; RECORD_PLACES],
    held: &mut [u16; NAMES],
    t: u16,
    from: Walk,
) -> Result<Walk, Failed>
    requires { ThreadToAsk case.now.bytes.now assignment.now t from.next held.old previous.old }
    ensures { ThreadAsked case.now.bytes.now assignment.now t from held.new previous.new result }
{
    let counts = Counts::of(case);
    let mut locals = [0u16; LOCALS];
    let mut items = start_of_block(case, assignment, 0);
    let mut block: u16 = 0;
    let mut broken = from.broken;
    let mut at = from.next;
    let mut k = first_of(case.bytes, t as usize) as u16;
    while k != 0 {
        let l = record_at(case.bytes, t, k as usize);
        let i = block_of(assignment, k);
        let value = value_of(assignment, k);
        let run = enter_block(case, assignment, &mut items, block, i);
        block = i;
        let seen = Seen {
            locals: &locals,
            items: &items,
            counts,
        };
        let asked = asked_of(&seen, l, value, run);
        line_failing(at, asked, value)?;
        broken = line::noted(broken, k, asked.breaks);
        at += value_rows(l.kind) as u16;
        note_copy(previous, held, asked.name, k);
        line::put_local(&mut locals, asked.name, value);
        line::put_item(&mut items, counts.items, asked.name, value);
        k = next_of(case.bytes, k as usize) as u16;
    }
    Ok(Walk { next: at, broken })
}

// The 4s and 5s of all threads, from number `start` on.
pub fn values_failing(
    case: &Case<'_>,
    assignment: &[u16],
    previous: &mut [u16; RECORD_PLACES],
    latest: &mut [[u16; NAMES]; THREADS],
    start: u16,
) -> Result<Walk, Failed>
    requires { AllToAsk case.now.bytes.now assignment.now start latest.old previous.old }
    ensures { AllAsked case.now.bytes.now assignment.now start latest.new previous.new result }
{
    let mut walk = Walk {
        next: start,
        broken: 0,
    };
    for t in 0..threads(case.bytes) {
        walk = thread_values(case, assignment, previous, &mut latest[t as usize], t, walk)?;
    }
    Ok(walk)
}
