// Refusals 12 and 13 of a schedule, and the values that it gives to input lines.
#![tactic(auto)]

ghost use Rattle.std.specs.Prelude.{◌≡◌, ℕ, ◌<◌, ◌≤◌, length, get_or, replicate};
ghost use Rattle.model.specs.Limits.{most_threads, most_blocks, record_places};
ghost use Rattle.model.specs.CaseFile.{case_of};
ghost use Rattle.model.specs.Schedule.{steps_of, lengths_fit};
ghost use Rattle.schedule_check.specs.InputValues.{inputs, ThreadPut, AllPut};
ghost use Rattle.schedule_check.specs.Ready.{InputsReady, SumsReady};
ghost use Rattle.schedule_check.specs.Refusals.{Looked};

use case_file::Case;
use model::{Kind, RECORD_PLACES, Refusal, THREADS};
use numbers::at;

// How many numbers of the schedule are used after a thread, and how many lines the thread has.
#[derive(Clone, Copy)]
pub struct Walked {
    pub used: usize,
    pub lines: usize,
}

// How many numbers of the schedule are used by all threads, and how many lines each has.
#[derive(Clone, Copy)]
pub struct Counts {
    pub used: usize,
    pub lines: [usize; THREADS],
}

// Refusal 12 or 13 of a schedule, if one meets it. The values of its inputs go to the places of their records.
pub fn refusal_of(
    case: &Case<'_>,
    schedule: &[u16],
    given: &mut [u16; RECORD_PLACES],
) -> Result<(), Refusal>
    requires { given.old ≡ replicate record_places 0 }
    ensures { Looked case.now.bytes.now schedule.now result given.new }
{
    let blocks = case_file::switches(case.bytes) as usize + 1;
    let counts = inputs_of(case, schedule, blocks, given);
    let used = counts.used;
    let lines = counts.lines;
    if schedule.len() != used {
        return Err(Refusal::Schedule);
    }
    let lengths = &schedule[..blocks];
    if !lengths_fit(case, lengths, lines) {
        return Err(Refusal::Lengths);
    }
    Ok(())
}

// The values of thread t's inputs: each takes the next number, and goes to the place of its record.
fn put_thread(
    case: &Case<'_>,
    schedule: &[u16],
    t: usize,
    start: usize,
    given: &mut [u16; RECORD_PLACES],
) -> Walked
    requires { InputsReady case.now.bytes.now t start }
    ensures { ThreadPut case.now.bytes.now schedule.now t (inputs given.old start) (inputs given.new result.used) result.lines }
{
    let mut k = case_file::first_of(case.bytes, t);
    let mut used = start;
    let mut lines = 0;
    while k != 0 {
        if let Kind::Input = case_file::kind_of(case.bytes, k) {
            given[k] = at(schedule, used);
            used += 1;
        }
        lines += 1;
        k = case_file::next_of(case.bytes, k);
    }
    Walked { used, lines }
}

// The values of all inputs, by record number; a schedule's block lengths come first.
fn inputs_of(
    case: &Case<'_>,
    schedule: &[u16],
    lengths: usize,
    given: &mut [u16; RECORD_PLACES],
) -> Counts
    requires { lengths ≤ most_blocks }
    ensures { AllPut case.now.bytes.now schedule.now (inputs given.old lengths) (inputs given.new result.used) result.lines }
{
    let threads = case_file::threads(case.bytes) as usize;
    let mut lines = [0usize; THREADS];
    let mut used = lengths;
    for t in 0..threads {
        let w = put_thread(case, schedule, t, used, given);
        used = w.used;
        lines[t] = w.lines;
    }
    Counts { used, lines }
}

// The lengths of each thread's blocks added up, without wrapping.
fn sums_of(case: &Case<'_>, lengths: &[u16]) -> [usize; THREADS]
    requires { length lengths.now ≤ most_blocks }
    ensures { (t : ℕ) → t < most_threads → get_or result t 0 ≡ steps_of (case_of case.now.bytes.now) t 0 lengths.now }
{
    let threads = case_file::threads(case.bytes) as usize;
    let mut sums = [0usize; THREADS];
    for (i, steps) in lengths.iter().enumerate() {
        sums[i % threads] += *steps as usize;
    }
    sums
}

// Whether the block lengths of each thread add up to at most its lines.
fn lengths_fit(case: &Case<'_>, lengths: &[u16], lines: [usize; THREADS]) -> bool
    requires { SumsReady case.now.bytes.now lengths.now lines }
    ensures { result ≡ lengths_fit (case_of case.now.bytes.now) lengths.now }
{
    let threads = case_file::threads(case.bytes) as usize;
    let sums = sums_of(case, lengths);
    for t in 0..threads {
        if lines[t] < sums[t] {
            return false;
        }
    }
    true
}
