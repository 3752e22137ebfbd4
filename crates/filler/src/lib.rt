// The filler: the assignment of a schedule whose run violates.
#![tactic(auto)]

ghost use Rattle.std.specs.Prelude.{Ok, ◌≡◌, ℕ, ◌≤◌, length};
ghost use Rattle.model.specs.Lists.{unless_0};
ghost use Rattle.model.specs.CaseFile.{records, case_of};
ghost use Rattle.model.specs.Fill.{late_in, first_late};
ghost use Rattle.model.specs.Accept.{verdict};
ghost use Rattle.model.specs.Answers.{filled, filled_into};
ghost use Rattle.laws.specs.Accepted.{lines_from};
ghost use Rattle.assignment.specs.Numbers.{record_block};
ghost use Rattle.run.specs.Found.{Finds};
ghost use Rattle.filler.specs.Lateness.{is_late};
ghost use Rattle.filler.specs.Promises.{RunFilled, Over, Answered};
ghost use Rattle.filler.specs.Ready.{RunReady, SliceReady};

use accept::accept;
use assignment::{block_of, was_run};
use case_file::{Case, first_of, kind_of, next_of, switches, threads};
use line::visible;
use model::{Kind, RECORD_PLACES, Refusal, Replayed, VARIABLES};
use numbers::write_over;
use run::run_case;
use schedule_check::refusal_of;

// The assignment of a schedule: refusals 1 to 9, then 10, 12, 13, 14, 16 and 17; else its numbers, from the slice's start.
#[tactic(auto, using(laws::proofs::Accepted::accepted_of), unfolding(model::specs::Answers::on_case, model::specs::Answers::filled, model::specs::Answers::filled_into))]
pub fn fill(case: &[u8], schedule: &[u16], assignment: &mut [u16]) -> Result<u16, Refusal>
    ensures value { result ≡ filled case.now schedule.now (length assignment.old) }
    ensures assignment_after { assignment.new ≡ filled_into case.now schedule.now assignment.old }
{
    accept(case)?;
    fill_accepted(&Case { bytes: case }, schedule, assignment)
}

// The assignment of a schedule of an accepted case: refusals 10, 12 and 13 before the run.
fn fill_accepted(case: &Case<'_>, schedule: &[u16], assignment: &mut [u16]) -> Result<u16, Refusal>
    requires { verdict case.now.bytes.now ≡ Ok tt }
    ensures { Answered case.now.bytes.now schedule.now assignment.old assignment.new result }
{
    let size = case.variables();
    if assignment.len() < size {
        return Err(Refusal::Short);
    }
    let mut given = [0u16; RECORD_PLACES];
    refusal_of(case, schedule, &mut given)?;
    let mut numbers = [0u16; VARIABLES];
    fill_over(case, schedule, &given, &mut numbers[..size], assignment)
}

// The run fills the numbers, and they go to the start of the slice where nothing refuses it.
fn fill_over(
    case: &Case<'_>,
    schedule: &[u16],
    given: &[u16],
    numbers: &mut [u16],
    assignment: &mut [u16],
) -> Result<u16, Refusal>
    requires { SliceReady case.now.bytes.now schedule.now given.now numbers.old assignment.old }
    ensures { Over case.now.bytes.now schedule.now assignment.old result assignment.new }
{
    let size = fill_run(case, schedule, given, numbers)?;
    write_over(numbers, assignment);
    Ok(size)
}

// The run of a schedule fills the numbers, which are 0 before it. Refusal 14 is the run's own; a run that does not violate is refused
// with 16, and then a late line with 17.
fn fill_run(
    case: &Case<'_>,
    schedule: &[u16],
    given: &[u16],
    numbers: &mut [u16],
) -> Result<u16, Refusal>
    requires { RunReady case.now.bytes.now schedule.now given.now numbers.old }
    ensures { RunFilled case.now.bytes.now schedule.now result numbers.new }
{
    let size = case.variables() as u16;
    let blocks = switches(case.bytes) as usize + 1;
    let lengths = &schedule[..blocks];
    let ended = run_case(case, lengths, given, numbers);
    let Replayed::Violated(_) = ended.reply? else {
        return Err(Refusal::NoViolation);
    };
    if let Some(late) = first_late(case, numbers) {
        return Err(Refusal::Late(late));
    }
    Ok(size)
}

// Whether a line of a kind in this block was run late: in a later block than the line before it, and invisible.
#[tactic(auto, unfolding(crate::specs::Lateness::is_late))]
fn is_late(case: &Case<'_>, kind: Kind, before: u16, block: u16) -> bool
    ensures { result ≡ is_late case.now.bytes.now kind before block }
{
    was_run(case, block) && !visible(kind) && before < block
}

// The first record that is late after record k, which starts a chain.
fn late_in(case: &Case<'_>, numbers: &[u16], k: usize) -> Option<u16>
    requires { k ≤ records case.now.bytes.now }
    ensures { (t : ℕ) → Finds (late_in (case_of case.now.bytes.now) (record_block numbers.now) (lines_from case.now.bytes.now t k)) result }
{
    if k == 0 {
        return None;
    }
    let mut before = k;
    let mut at = next_of(case.bytes, k);
    while at != 0 {
        let first = block_of(numbers, before as u16);
        let block = block_of(numbers, at as u16);
        if is_late(case, kind_of(case.bytes, at), first, block) {
            return Some(at as u16);
        }
        before = at;
        at = next_of(case.bytes, at);
    }
    None
}

// The first record that is late, by thread and chain.
fn first_late(case: &Case<'_>, numbers: &[u16]) -> Option<u16>
    ensures { result ≡ unless_0 (first_late (case_of case.now.bytes.now) (record_block numbers.now) (case_of case.now.bytes.now).threads) }
{
    for t in 0..threads(case.bytes) as usize {
        if let Some(k) = late_in(case, numbers, first_of(case.bytes, t)) {
            return Some(k);
        }
    }
    None
}
