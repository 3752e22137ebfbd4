// Constraints 1 to 3 and 8: along a thread the block numbers do not fall, are at most n + 1, and are the thread's modulo T, but for
// n + 1, the number of a line that was not run; and an invisible line that was run has the block number of the line before it.
#![tactic(auto)]

ghost use Rattle.std.specs.Prelude.{◌≡◌};
ghost use Rattle.search.specs.Search.{searched};
ghost use Rattle.order_check.specs.Rows.{link_rows, thread_orders, all_orders, own_block, stayed_in, most_block, AtConstraint, ThreadReady};

use assignment::{block_of, was_run};
use case_file::{Case, Link, first_of, link_at, switches, threads};
use line::{order_rows, stays};
use search::Failed;

// Whether thread t may have a line with this block number: where the line was run, the block is the thread's.
fn own_block(case: &Case<'_>, t: u16, block: u16) -> bool
    ensures { result ≡ own_block case.now.bytes.now t block }
{
    if was_run(case, block) {
        return block % threads(case.bytes) == t;
    }
    true
}

// Whether a line with this block number meets its 8, or has none: where it was run, the line before it has the same number.
fn stayed(case: &Case<'_>, assignment: &[u16], link: Link, block: u16) -> bool
    ensures { result ≡ stayed_in case.now.bytes.now assignment.now link block }
{
    if !was_run(case, block) {
        return true;
    }
    if stays(link.before == 0, link.kind) {
        return block == block_of(assignment, link.before);
    }
    true
}

// What a line's block number is at most: that of the next line, or n + 1.
fn most_block(case: &Case<'_>, assignment: &[u16], next: u16) -> u16
    ensures { result ≡ most_block case.now.bytes.now assignment.now next }
{
    if next == 0 {
        return switches(case.bytes) + 1;
    }
    block_of(assignment, next)
}

// The order constraints of a line, its 3 having number `at`: the number of the next constraint, or the first that fails.
fn line_order(
    case: &Case<'_>,
    assignment: &[u16],
    t: u16,
    at: u16,
    link: Link,
) -> Result<u16, Failed>
    requires { AtConstraint case.now.bytes.now at link }
    ensures { result ≡ searched case.now.bytes.now assignment.now at (link_rows case.now.bytes.now t link) }
{
    let block = block_of(assignment, link.line);
    if !own_block(case, t, block) {
        return Err(Failed { constraint: at });
    }
    if !stayed(case, assignment, link, block) {
        return Err(Failed { constraint: at + 1 });
    }
    let next = at + order_rows(link.before == 0, link.kind) as u16;
    if block <= most_block(case, assignment, link.next) {
        return Ok(next);
    }
    Err(Failed {
        constraint: next - 1,
    })
}

// The order constraints of thread t, from number `start` on.
fn thread_order(case: &Case<'_>, assignment: &[u16], t: u16, start: u16) -> Result<u16, Failed>
    requires { ThreadReady case.now.bytes.now t start }
    ensures { result ≡ searched case.now.bytes.now assignment.now start (thread_orders case.now.bytes.now t) }
{
    let mut at = start;
    let mut before: u16 = 0;
    let mut k = first_of(case.bytes, t as usize) as u16;
    while k != 0 {
        let link = link_at(case.bytes, before, k);
        at = line_order(case, assignment, t, at, link)?;
        before = k;
        k = link.next;
    }
    Ok(at)
}

// The order constraints of all threads, from number 1 on.
pub fn order_failing(case: &Case<'_>, assignment: &[u16]) -> Result<u16, Failed>
    ensures { result ≡ searched case.now.bytes.now assignment.now 1 (all_orders case.now.bytes.now) }
{
    let mut next: u16 = 1;
    for t in 0..threads(case.bytes) {
        next = thread_order(case, assignment, t, next)?;
    }
    Ok(next)
}
