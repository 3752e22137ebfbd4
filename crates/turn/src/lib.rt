// A thread's turn in a run of an accepted case: what the thread holds, with what the threads share, as one value. Its steps and
// its blocks are methods that hand the next turn back.
#![tactic(auto)]

ghost use Rattle.std.specs.Prelude.{◌≡◌, ◌<◌, true, false, ℕ, if◌then◌else◌};
ghost use Rattle.model.specs.Limits.{most_records, most_threads};
ghost use Rattle.model.specs.Line.{guarded_out_value, unrun_stray};
ghost use Rattle.model.specs.Fill.{put_record};
ghost use Rattle.laws.specs.RecordNumber.{RecordNumber};
ghost use Rattle.case_file.specs.Records.{as_line};
ghost use Rattle.line.specs.SeenReads.{reads_in};
ghost use Rattle.line.specs.declared.Seen.{Seen};
ghost use Rattle.turn.specs.declared.Effect.TheVariants as effects;
ghost use Rattle.turn.specs.Promises.{Ready, Does, Effective, LineTraced, gone_on, BlockRecorded};

use case_file::{Case, Record};
use line::{Counts, Seen};
use model::{ITEMS, Kind, LOCALS, NAMES};

// How the run stands: it goes on, or it met an input of refusal 14, or a line that ended it.
#[derive(Clone, Copy)]
pub enum Stand {
    Running,
    Strayed(u16),
    Stopped(u16),
}

// The thread's next record, 0 at its end, and its locals; the items, how the run stands, and the record of the first line that
// violates. That is 0 while there is none, and no Option: it is the number `note` of model's Machine.run_block.
#[derive(Clone, Copy)]
pub struct Turn {
    pub next: usize,
    pub locals: [u16; LOCALS],
    pub items: [u16; ITEMS],
    pub stand: Stand,
    pub note: u16,
}

// What a line does: it strays, or it ends the run, or it writes a value to a name and may violate.
#[derive(Clone, Copy)]
pub enum Effect {
    Strays,
    Stops,
    Writes {
        name: usize,
        value: u16,
        breaks: bool,
    },
}

// A name gets a value.
fn put(name: usize, value: u16) -> Effect
    ensures { result ≡ effects.Writes name value false }
{
    Effect::Writes {
        name,
        value,
        breaks: false,
    }
}

// A name gets a value, unless the line ends the run.
fn put_unless(stops: bool, name: usize, value: u16) -> Effect
    ensures { result ≡ (if stops then effects.Stops else effects.Writes name value false) }
{
    if stops {
        Effect::Stops
    } else {
        put(name, value)
    }
}

// What a line with a true guard does, by its kind: compute, store, load, input, assert, assume, lock, unlock.
fn effect_in(seen: &Seen<'_>, l: Record, given: u16) -> Effect
    requires { l.thread < most_threads }
    ensures { (k : ℕ) → Does true seen.now.counts.globals (as_line l k) (reads_in seen.now given (as_line l k)) result }
{
    let target = l.target as usize;
    match l.kind {
        Kind::Compute => put(
            line::local_name(l.target),
            line::expression_of(seen.locals, l),
        ),
        Kind::Store => put(LOCALS + target, line::expression_of(seen.locals, l)),
        Kind::Load => put(line::local_name(l.target), seen.item(l.a as usize)),
        Kind::Input => put(line::local_name(l.target), given),
        Kind::Assert => {
            let value = line::bit_of(line::expression_of(seen.locals, l) != 0);
            Effect::Writes {
                name: NAMES,
                value,
                breaks: seen.breaks(l, value),
            }
        }
        Kind::Assume => put_unless(line::expression_of(seen.locals, l) == 0, NAMES, 1),
        Kind::Lock => {
            let mutex = seen.counts.globals + target;
            let taken = seen.item(mutex) != 0;
            put_unless(taken, LOCALS + mutex, line::holder(l))
        }
        Kind::Unlock => Effect::Writes {
            name: LOCALS + (seen.counts.globals + target),
            value: 0,
            breaks: seen.breaks(l, 0),
        },
    }
}

// Whether a line of a kind strays that has a false guard, or was not run: an input must be given 0.
#[tactic(auto, unfolding(model::specs::Line::unrun_stray))]
pub fn strays(kind: Kind, given: u16) -> bool
    ensures { result ≡ unrun_stray kind given }
{
    match kind {
        Kind::Input => given != 0,
        _ => false,
    }
}

// What a line with a false guard does: nothing, unless it strays.
fn effect_out(l: Record, given: u16) -> Effect
    ensures { (seen : Seen) (k : ℕ) → Does false seen.counts.globals (as_line l k) (reads_in seen given (as_line l k)) result }
{
    if strays(l.kind, given) {
        Effect::Strays
    } else {
        put(NAMES, 0)
    }
}

// What a line does, by its guard.
fn effect_of(seen: &Seen<'_>, l: Record, given: u16) -> Effect
    requires { l.thread < most_threads }
    ensures { (k : ℕ) → Effective seen.now.counts.globals (as_line l k) (reads_in seen.now given (as_line l k)) result }
{
    if line::guarded(seen.locals, l) {
        return effect_in(seen, l, given);
    }
    effect_out(l, given)
}

// The block number and the value of record k go to its places, where the trace has them.
pub fn put_record(trace: &mut [u16], k: usize, block: u16, value: u16)
    requires { RecordNumber most_records k }
    ensures { trace.new ≡ put_record k block value trace.old }
{
    let first = 2 * (k - 1);
    if first < trace.len() {
        trace[first] = block;
        let second = first + 1;
        if second < trace.len() {
            trace[second] = value;
        }
    }
}

// The value of a line with a false guard: its target's old value, and 1 for assert and assume.
#[tactic(auto, unfolding(model::specs::Line::guarded_out_value, model::specs::Line::name_of_target))]
fn old_value(seen: &Seen<'_>, l: Record) -> u16
    ensures { (given k : ℕ) → result ≡ guarded_out_value l.kind (reads_in seen.now given (as_line l k)) }
{
    let target = l.target as usize;
    match l.kind {
        Kind::Compute | Kind::Load | Kind::Input => line::local_at(seen.locals, l.target),
        Kind::Store => seen.item(target),
        Kind::Assert | Kind::Assume => 1,
        Kind::Lock | Kind::Unlock => seen.item(seen.counts.globals + target),
    }
}

// The block number and the value of line l, record k, go to the trace. Where its guard is false its value is looked up, but not for
// an empty trace.
fn trace_line(trace: &mut [u16], k: usize, block: u16, seen: &Seen<'_>, l: Record, value: u16)
    requires { RecordNumber most_records k }
    ensures { (given j : ℕ) → LineTraced k block (as_line l j) (reads_in seen.now given (as_line l j)) value trace.old trace.new }
{
    if trace.is_empty() {
        return;
    }
    if line::guarded(seen.locals, l) {
        put_record(trace, k, block, value);
        return;
    }
    let old = old_value(seen, l);
    put_record(trace, k, block, old);
}

impl Turn {
    // The run ends here.
    fn ended(mut self, stand: Stand) -> Turn
        ensures { result ≡ record { next = self.next; locals = self.locals; items = self.items; stand = stand; note = self.note } }
    {
        self.stand = stand;
        self
    }

    // The step is over: the thread goes on to its next record, and line k is noted if it is the first that violates.
    fn step(mut self, next: usize, k: u16, breaks: bool) -> Turn
        ensures { result ≡ gone_on self next k breaks }
    {
        self.next = next;
        self.note = line::noted(self.note, k, breaks);
        self
    }

    // Block i, of thread t: so many steps, or fewer where the thread or the run ends. What a line writes goes to the turn's own
    // locals and items, which are lent for it, and its block number and its value to the trace.
    pub fn block(
        mut self,
        t: u16,
        case: &Case<'_>,
        given: &[u16],
        steps: u16,
        i: u16,
        trace: &mut [u16],
    ) -> Turn
        requires { Ready case.now.bytes.now given.now t self }
        ensures { BlockRecorded case.now.bytes.now given.now t i steps self result trace.old trace.new }
    {
        if !matches!(self.stand, Stand::Running) {
            return self;
        }
        let counts = Counts::of(case);
        for _ in 0..steps {
            let at = self.next;
            if at == 0 {
                return self;
            }
            let k = at as u16;
            let l = case_file::record_at(case.bytes, t, at);
            let seen = Seen {
                locals: &self.locals,
                items: &self.items,
                counts,
            };
            match effect_of(&seen, l, given[at]) {
                Effect::Strays => return self.ended(Stand::Strayed(k)),
                Effect::Stops => return self.ended(Stand::Stopped(k)),
                Effect::Writes {
                    name,
                    value,
                    breaks,
                } => {
                    trace_line(trace, at, i, &seen, l, value);
                    line::put_local(&mut self.locals, name, value);
                    line::put_item(&mut self.items, counts.items, name, value);
                    self = self.step(case_file::next_of(case.bytes, at), k, breaks);
                }
            }
        }
        self
    }
}
