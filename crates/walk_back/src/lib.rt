// Constraint 6: the value of each item at the end of each block, walking back over the copies of the block's thread.
#![tactic(auto)]

ghost use Rattle.std.specs.Prelude.{◌≡◌};
ghost use Rattle.model.specs.Limits.{most_lines};
ghost use Rattle.search.specs.Search.{searched};
ghost use Rattle.walk_back.specs.Deciding.{deciding, decided_value};
ghost use Rattle.walk_back.specs.Blocks.{sixes_of, all_sixes, SixesReady, SpanReady};

use assignment::{block_of, start_of_block, value_of};
use case_file::{Case, switches, threads};
use copies::copy_of;
use model::{ITEMS, LOCALS, MOST_LINES, NAMES, THREADS};
use numbers::at;
use search::Failed;

// A block with the number of its first 6, and the items' values where it starts and where the next one does.
#[derive(Clone, Copy)]
pub struct Span {
    pub block: u16,
    pub start: u16,
    pub before: [u16; ITEMS],
    pub after: [u16; ITEMS],
}

// Walking back from a copy: the first that has block number i; 0 where the chain of copies ends before one is found. A rule of the
// project: document 01 names this form, a loop that yields the copy by break, left by a label when the chain of copies ends.
#[tactic(auto, using(crate::proofs::Deciding::deciding_spent, crate::proofs::Deciding::deciding_ends, crate::proofs::Deciding::deciding_found, crate::proofs::Deciding::deciding_goes_on))]
fn deciding_copy(assignment: &[u16], previous: &[u16], i: u16, last: u16) -> u16
    ensures { result ≡ deciding previous.now assignment.now i most_lines last }
{
    let mut p = last;
    let mut left = MOST_LINES;
    let copy = 'chain: loop {
        if left == 0 {
            break 'chain 0;
        }
        if p == 0 {
            break 'chain 0;
        }
        let block = block_of(assignment, p);
        if block == i {
            break p;
        }
        p = at(previous, p as usize);
        left -= 1;
    };
    copy
}

// The value of an item at the end of block i, walking back from its last copy, by its value where the block starts.
fn decided_value(assignment: &[u16], previous: &[u16], i: u16, last: u16, before: u16) -> u16
    ensures { result ≡ decided_value assignment.now before (deciding previous.now assignment.now i most_lines last) }
{
    let p = deciding_copy(assignment, previous, i, last);
    if p == 0 {
        return before;
    }
    value_of(assignment, p)
}

// The 6s of a block.
fn block_failing(
    case: &Case<'_>,
    assignment: &[u16],
    previous: &[u16],
    latest: &[[u16; NAMES]; THREADS],
    span: Span,
) -> Result<u16, Failed>
    requires { SpanReady case.now.bytes.now assignment.now previous.now latest.now span }
    ensures { result ≡ searched case.now.bytes.now assignment.now span.start (sixes_of case.now.bytes.now span.block) }
{
    let t = (span.block % threads(case.bytes)) as usize;
    let mut at = span.start;
    for g in 0..case.items() {
        let last = copy_of(&latest[t], LOCALS + g);
        let value = decided_value(assignment, previous, span.block, last, span.before[g]);
        if span.after[g] != value {
            return Err(Failed { constraint: at });
        }
        at += 1;
    }
    Ok(at)
}

// The 6s of all blocks, from number `start` on.
pub fn blocks_failing(
    case: &Case<'_>,
    assignment: &[u16],
    previous: &[u16],
    latest: &[[u16; NAMES]; THREADS],
    start: u16,
) -> Result<u16, Failed>
    requires { SixesReady case.now.bytes.now previous.now latest.now start (all_sixes case.now.bytes.now) }
    ensures { result ≡ searched case.now.bytes.now assignment.now start (all_sixes case.now.bytes.now) }
{
    let mut next = start;
    let mut before = start_of_block(case, assignment, 0);
    for block in 0..switches(case.bytes) {
        let after = start_of_block(case, assignment, block + 1);
        let span = Span {
            block,
            start: next,
            before,
            after,
        };
        next = block_failing(case, assignment, previous, latest, span)?;
        before = after;
    }
    Ok(next)
}
