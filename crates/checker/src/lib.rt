// The checker: whether an assignment meets the constraints of a case. It goes along the lines and asks of each constraint, in
// the table's order, whether it holds; no table is written.
#![tactic(auto)]

ghost use Rattle.std.specs.Prelude.{◌≡◌};
ghost use Rattle.model.specs.Answers.{failed_in, checked};
ghost use Rattle.checker.specs.Answer.{held_unless, checked_accepted};
ghost use Rattle.checker.specs.Run.{RunSearched};

use accept::accept;
use case_file::Case;
use model::{Checked, NAMES, RECORD_PLACES, Refusal, THREADS};
use order_check::order_failing;
use search::Failed;
use value_check::{Walk, values_failing};
use walk_back::blocks_failing;

// Whether an assignment meets the constraints of a case: refusals 1 to 9, then 11; else yes, or the first that fails.
#[tactic(auto, using(laws::proofs::Accepted::accepted_of), unfolding(model::specs::Answers::on_case, model::specs::Answers::checked, crate::specs::Answer::checked_accepted))]
pub fn check(case: &[u8], assignment: &[u16]) -> Result<Checked, Refusal>
    ensures { result ≡ checked case.now assignment.now }
{
    accept(case)?;
    check_accepted(&Case { bytes: case }, assignment)
}

// The answer where the case is accepted: refusal 11, yes, or the first constraint that fails.
#[tactic(auto, using(crate::proofs::Answering::meets_of, crate::proofs::Answering::fails_of), unfolding(crate::specs::Answer::checked_accepted))]
pub fn check_accepted(case: &Case<'_>, assignment: &[u16]) -> Result<Checked, Refusal>
    ensures { result ≡ checked_accepted case.now.bytes.now assignment.now }
{
    Refusal::Assignment.unless(assignment.len() == case.variables())?;
    match failed(case, assignment) {
        Ok(()) => Ok(Checked::Meets),
        Err(Failed { constraint }) => Ok(Checked::Fails(constraint)),
    }
}

// The constraints but for the goal, from number 1 on, with the record of the first line that violates.
#[tactic(auto, using(crate::proofs::Parts::order_fails, crate::proofs::Parts::values_start, crate::proofs::Parts::all_ordered_lem, crate::proofs::Parts::values_fail, crate::proofs::Parts::blocks_start, crate::proofs::Parts::blocks_end, copies::proofs::CopyChains::chains_start))]
fn run_failing(case: &Case<'_>, assignment: &[u16]) -> Result<Walk, Failed>
    ensures { RunSearched case.now.bytes.now assignment.now result }
{
    let start = order_failing(case, assignment)?;
    let mut previous = [0u16; RECORD_PLACES];
    let mut latest = [[0u16; NAMES]; THREADS];
    let walk = values_failing(case, assignment, &mut previous, &mut latest, start)?;
    let next = blocks_failing(case, assignment, &previous, &latest, walk.next)?;
    Ok(Walk { next, ..walk })
}

// The first constraint of an accepted case that fails, counted from 1, if one does. The goal comes last, and holds where some line
// violates.
#[tactic(auto, using(crate::proofs::Parts::run_fails, crate::proofs::Parts::goal_met, crate::proofs::Parts::goal_missed))]
fn failed(case: &Case<'_>, assignment: &[u16]) -> Result<(), Failed>
    ensures { result ≡ held_unless (failed_in case.now.bytes.now assignment.now) }
{
    let run = run_failing(case, assignment)?;
    if run.broken == 0 {
        return Err(Failed {
            constraint: run.next,
        });
    }
    Ok(())
}
