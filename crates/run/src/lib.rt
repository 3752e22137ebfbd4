// The run of an accepted case: its threads stand in a lent slice, and each block moves one of them. Document 01 names this form: "a
// lent slice of at most four thread structs, changed by a few thin functions over covered ones".
#![tactic(auto)]

ghost use Rattle.std.specs.Prelude.{◌≡◌, ℕ, ◌%◌, ◌≤◌, ◌<◌, List, set, length, take};
ghost use Rattle.std.proofs.lemmas.List.Edits.{sets};
ghost use Rattle.model.specs.Limits.{most_threads, most_blocks, header_bytes};
ghost use Rattle.model.specs.CaseFile.{records, thread_count, case_of};
ghost use Rattle.model.specs.Machine as machine;
ghost use Rattle.model.specs.Fill.{put_items, put_unrun};
ghost use Rattle.laws.specs.Accepted.{lines_from};
ghost use Rattle.case_file.specs.Present.{InHeader};
ghost use Rattle.turn.specs.TurnState.{items_of, given_by};
ghost use Rattle.run.specs.declared.Thread.{Thread};
ghost use Rattle.run.specs.RunState.{turn_of, first_thread, first_threads, first_shared};
ghost use Rattle.run.specs.Found.{Finds};
ghost use Rattle.run.specs.Promises.{BlockReady, RestReady, RunReady, RunAtBlock, ItemsReady, BlockAt, MovedBy, Played, LeftSeen, LeftLooked, outcome_of, Replies, Traced};

use case_file::Case;
use model::{BLOCKS, ITEMS, LOCALS, Refusal, Replayed, THREADS};
use turn::{Stand, Turn};

// A thread's next record, 0 at its end, and its locals.
#[derive(Clone, Copy)]
pub struct Thread {
    pub next: usize,
    pub locals: [u16; LOCALS],
}

// What the threads share: the items, how the run stands, and the record of the first line that violates. That is 0 while there is
// none, as in turn's Turn.
#[derive(Clone, Copy)]
pub struct Shared {
    pub items: [u16; ITEMS],
    pub stand: Stand,
    pub note: u16,
}

// A block's thread after it, and what the threads then share.
#[derive(Clone, Copy)]
pub struct Moved {
    pub thread: Thread,
    pub shared: Shared,
}

// All threads after the blocks, and what they then share.
#[derive(Clone, Copy)]
pub struct AllMoved {
    pub threads: [Thread; THREADS],
    pub shared: Shared,
}

// The reply, and the items at the run's end.
#[derive(Clone, Copy)]
pub struct Ended {
    pub reply: Result<Replayed, Refusal>,
    pub items: [u16; ITEMS],
}

// The run of a case in blocks with these lengths, from its start. What its lines and its blocks come to goes to their places in the trace,
// where it has them; so do the numbers of the lines that it leaves.
pub fn run_case(case: &Case<'_>, lengths: &[u16], given: &[u16], trace: &mut [u16]) -> Ended
    requires { records case.now.bytes.now < length given.now }
    ensures { Traced case.now.bytes.now given.now lengths.now trace.old result trace.new }
{
    let first = first_threads(case.bytes);
    let shared = first_shared(case);
    let all = lend(first, case, lengths, given, shared, trace);
    let threads = all.threads;
    let last = look_left(threads, all.shared, case, given, trace);
    end_of(last)
}

// The threads where a run starts; an absent thread is at its end. Four calls and no `map` over their numbers: that it may call
// `first_thread` at each of them did not prove.
fn first_threads(case: &[u8]) -> [Thread; THREADS]
    requires { header_bytes ≤ length case.now }
    ensures { result ≡ first_threads case.now }
{
    [
        first_thread(case, 0),
        first_thread(case, 1),
        first_thread(case, 2),
        first_thread(case, 3),
    ]
}

// Thread t at its first record.
fn first_thread(case: &[u8], t: usize) -> Thread
    requires { InHeader case.now t most_threads }
    ensures { result ≡ first_thread case.now t }
{
    Thread {
        next: case_file::first_of(case, t),
        locals: [0; LOCALS],
    }
}

// What the threads share where a run starts.
fn first_shared(case: &Case<'_>) -> Shared
    ensures { result ≡ first_shared case.now.bytes.now }
{
    Shared {
        items: case_file::first_items(case.bytes),
        stand: Stand::Running,
        note: 0,
    }
}

// The threads are lent to all blocks, and handed back by value with what they then share.
fn lend(
    threads: [Thread; THREADS],
    case: &Case<'_>,
    lengths: &[u16],
    given: &[u16],
    shared: Shared,
    trace: &mut [u16],
) -> AllMoved
    requires { RunReady case.now.bytes.now given.now threads }
    ensures { Played case.now.bytes.now given.now lengths.now threads shared trace.old result.threads result.shared trace.new }
{
    let mut ts = threads;
    let last = blocks_at(&mut ts, case, lengths, given, shared, trace);
    AllMoved {
        threads: ts,
        shared: last,
    }
}

// All blocks with these lengths.
fn blocks_at(
    threads: &mut [Thread],
    case: &Case<'_>,
    lengths: &[u16],
    given: &[u16],
    shared: Shared,
    trace: &mut [u16],
) -> Shared
    requires { RunReady case.now.bytes.now given.now threads.old }
    ensures { Played case.now.bytes.now given.now lengths.now threads.old shared trace.old threads.new result trace.new }
{
    let mut last = shared;
    for i in 0..lengths.len() {
        last = block_at(threads, case, lengths, given, i, last, trace);
    }
    last
}

// Block i, of the thread that it belongs to.
fn block_at(
    threads: &mut [Thread],
    case: &Case<'_>,
    lengths: &[u16],
    given: &[u16],
    i: usize,
    shared: Shared,
    trace: &mut [u16],
) -> Shared
    requires { RunAtBlock case.now.bytes.now lengths.now given.now threads.old i }
    ensures { BlockAt case.now.bytes.now given.now lengths.now i threads.old shared trace.old threads.new result trace.new }
{
    let t = thread_of(case, i);
    let moved = block_of(threads[t], shared, case, lengths, given, i, trace);
    threads[t] = moved.thread;
    moved.shared
}

// The thread that block i belongs to.
fn thread_of(case: &Case<'_>, i: usize) -> usize
    ensures { result ≡ i % thread_count case.now.bytes.now }
{
    i % case_file::threads(case.bytes) as usize
}

// Block i as a number of the trace; past the last block that a case can have, 0: turn's `BlockRecorded` speaks of the blocks below that
// limit only.
fn number_of(i: usize) -> u16
    ensures { i < most_blocks → result ≡ i }
{
    if i < BLOCKS { i as u16 } else { 0 }
}

// A number goes to its place, if the trace has it. A test and no `get_mut`, whose promise does not say how the slice ends.
fn put_at(trace: &mut [u16], at: usize, value: u16)
    ensures { trace.new ≡ set trace.old at value }
{
    if at < trace.len() {
        trace[at] = value;
    }
}

// The first so many values go to the places from a place on.
fn put_values(values: [u16; ITEMS], count: usize, start: usize, trace: &mut [u16])
    requires { ItemsReady count start }
    ensures { trace.new ≡ sets trace.old start (take count values) }
{
    for (g, value) in values[..count].iter().enumerate() {
        put_at(trace, start + g, *value);
    }
}

// The items where block i ends go to its places; the last block has none.
fn put_items(case: &Case<'_>, i: usize, shared: Shared, trace: &mut [u16])
    ensures { trace.new ≡ put_items (case_of case.now.bytes.now) i (items_of case.now.bytes.now shared.items) trace.old }
{
    let n = case_file::switches(case.bytes) as usize;
    if n <= i {
        return;
    }
    let count = case.items();
    let start = 2 * case_file::records(case.bytes) + i * count;
    if trace.len() <= start {
        return;
    }
    put_values(shared.items, count, start, trace);
}

// Block i of a run, by the thread that it belongs to.
fn block_of(
    thread: Thread,
    shared: Shared,
    case: &Case<'_>,
    lengths: &[u16],
    given: &[u16],
    i: usize,
    trace: &mut [u16],
) -> Moved
    requires { BlockReady case.now.bytes.now lengths.now given.now thread i }
    ensures { MovedBy case.now.bytes.now given.now lengths.now i thread shared trace.old result trace.new }
{
    let t = thread_of(case, i) as u16;
    let turn = thread.turn(shared);
    let after = turn.block(t, case, given, lengths[i], number_of(i), trace);
    let locals = after.locals;
    let items = after.items;
    let moved = Thread {
        next: after.next,
        locals,
    };
    let last = Shared {
        items,
        stand: after.stand,
        note: after.note,
    };
    put_items(case, i, last, trace);
    Moved {
        thread: moved,
        shared: last,
    }
}

impl Thread {
    // The thread's turn.
    fn turn(self, shared: Shared) -> Turn
        ensures { result ≡ turn_of self shared }
    {
        let locals = self.locals;
        let items = shared.items;
        Turn {
            next: self.next,
            locals,
            items,
            stand: shared.stand,
            note: shared.note,
        }
    }
}

// The first record that strays among the unrun lines from k on.
fn stray_left(case: &Case<'_>, given: &[u16], k: usize) -> Option<u16>
    requires { RestReady case.now.bytes.now given.now k }
    ensures { (t : ℕ) → Finds (machine.stray_left (given_by given.now) (lines_from case.now.bytes.now t k)) result }
{
    let mut at = k;
    while at != 0 {
        if turn::strays(case_file::kind_of(case.bytes, at), given[at]) {
            return Some(at as u16);
        }
        at = case_file::next_of(case.bytes, at);
    }
    None
}

// The lines from record k on were not run: each has block number n + 1, and the value of such a line. A trace of no numbers stays one.
fn put_unrun(case: &Case<'_>, k: usize, trace: &mut [u16])
    requires { k ≤ records case.now.bytes.now }
    ensures { (t : ℕ) → trace.new ≡ put_unrun (case_of case.now.bytes.now) (lines_from case.now.bytes.now t k) trace.old }
{
    if trace.is_empty() {
        return;
    }
    let block = case_file::switches(case.bytes) + 1;
    let mut at = k;
    while at != 0 {
        let value = line::unrun_value(case_file::kind_of(case.bytes, at));
        turn::put_record(trace, at, block, value);
        at = case_file::next_of(case.bytes, at);
    }
}

// The first that strays among the lines that all threads have left. These lines were not run, and have their numbers in the trace.
fn first_stray_left(
    threads: [Thread; THREADS],
    case: &Case<'_>,
    given: &[u16],
    trace: &mut [u16],
) -> Option<u16>
    requires { RunReady case.now.bytes.now given.now threads }
    ensures { LeftSeen case.now.bytes.now given.now threads trace.old result trace.new }
{
    let count = case_file::threads(case.bytes) as usize;
    for thread in &threads[..count] {
        put_unrun(case, thread.next, trace);
    }
    for thread in &threads[..count] {
        if let Some(k) = stray_left(case, given, thread.next) {
            return Some(k);
        }
    }
    None
}

// What the threads share after the last step: the run strays where an unrun input does, unless it has ended before.
fn look_left(
    threads: [Thread; THREADS],
    shared: Shared,
    case: &Case<'_>,
    given: &[u16],
    trace: &mut [u16],
) -> Shared
    requires { RunReady case.now.bytes.now given.now threads }
    ensures { LeftLooked case.now.bytes.now given.now threads shared trace.old result trace.new }
{
    let Stand::Running = shared.stand else {
        return shared;
    };
    match first_stray_left(threads, case, given, trace) {
        Some(k) => Shared {
            stand: Stand::Strayed(k),
            ..shared
        },
        None => shared,
    }
}

// What a run has come to.
fn end_of(shared: Shared) -> Ended
    ensures { (bytes : List ℕ) (threads : List Thread) → Replies bytes (outcome_of bytes threads shared) result }
{
    let reply = match shared.stand {
        Stand::Strayed(k) => Err(Refusal::Stray(k)),
        Stand::Stopped(k) => Ok(Replayed::CutOff(k)),
        Stand::Running if shared.note == 0 => Ok(Replayed::Clean),
        Stand::Running => Ok(Replayed::Violated(shared.note)),
    };
    let items = shared.items;
    Ended { reply, items }
}
