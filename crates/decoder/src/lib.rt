// The decoder: the schedule of an assignment that meets the constraints.
#![tactic(auto)]

ghost use Rattle.std.specs.Prelude.{Ok, ◌≡◌, length};
ghost use Rattle.model.specs.Accept.{verdict};
ghost use Rattle.model.specs.Answers.{decoded, decoded_into};
ghost use Rattle.decoder.specs.Decoding.{Answered};

use accept::accept;
use case_file::Case;
use checker::check_accepted;
use model::{Checked, Refusal};
use schedule::{schedule_size, write_schedule};

// The schedule of an assignment: refusals 1 to 9, then 10, 11 and 15; else how many numbers it has, from the slice's start.
#[tactic(auto, using(laws::proofs::Accepted::accepted_of), unfolding(model::specs::Answers::on_case, model::specs::Answers::decoded, model::specs::Answers::decoded_into))]
pub fn decode(case: &[u8], assignment: &[u16], schedule: &mut [u16]) -> Result<u16, Refusal>
    ensures value { result ≡ decoded case.now assignment.now (length schedule.old) }
    ensures schedule_after { schedule.new ≡ decoded_into case.now assignment.now schedule.old }
{
    accept(case)?;
    decode_accepted(&Case { bytes: case }, assignment, schedule)
}

// The schedule of an assignment to an accepted case: refusals 10, 11 and 15 before any number is written.
#[tactic(auto, unfolding(model::specs::Answers::on_case, model::specs::Answers::decoded, model::specs::Answers::decoded_into, checker::specs::Answer::checked_accepted))]
fn decode_accepted(
    case: &Case<'_>,
    assignment: &[u16],
    schedule: &mut [u16],
) -> Result<u16, Refusal>
    requires { verdict case.now.bytes.now ≡ Ok tt }
    ensures { Answered case.now.bytes.now assignment.now schedule.old schedule.new result }
{
    let size = schedule_size(case);
    Refusal::Short.unless(size <= schedule.len())?;
    let Checked::Fails(constraint) = check_accepted(case, assignment)? else {
        write_schedule(case, assignment, schedule);
        return Ok(size as u16);
    };
    Err(Refusal::Fails(constraint))
}
