// Which cases are accepted: checks 1 to 9 in order.
#![tactic(auto)]

ghost use Rattle.std.specs.Prelude.{◌≡◌};
ghost use Rattle.model.specs.Accept.{verdict};
ghost use Rattle.accept.specs.HeaderPassed.{HeaderPassed};

mod header; // header.rt: checks 1 to 5

use model::Refusal;

// Checks 1 to 9: the first that fails gives the refusal.
#[tactic(auto, using(laws::proofs::Accepted::sized_of, laws::proofs::OnCase::check_passed), unfolding(model::specs::Accept::verdict))]
pub fn accept(case: &[u8]) -> Result<(), Refusal>
    ensures { result ≡ verdict case.now }
{
    Refusal::Size.unless(header::size_ok(case))?;
    Refusal::Threads.unless(header::threads_ok(case))?;
    Refusal::Switches.unless(header::switches_ok(case))?;
    Refusal::Counts.unless(header::items_ok(case))?;
    Refusal::Absent.unless(header::absent_ok(case))?;
    accept_records(case)
}

// Checks 6 to 9 of a case that passes 1 to 5.
#[tactic(auto, unfolding(model::specs::Accept::verdict))]
fn accept_records(case: &[u8]) -> Result<(), Refusal>
    requires { HeaderPassed case.now }
    ensures { result ≡ verdict case.now }
{
    links::check(case)?;
    match rules::broken_record(case) {
        Some(record) => Err(Refusal::Fields(record)),
        None => Ok(()),
    }
}
