// Checks 6 to 8: first and next numbers, how often each record is reached, how long the chains are.
#![tactic(auto)]

ghost use Rattle.std.specs.Prelude.{◌≡◌};
ghost use Rattle.model.specs.CaseFile.{records};
ghost use Rattle.laws.specs.Sized.{Sized};
ghost use Rattle.links.specs.Links.{nexts_in, numbers_ok, ThreadsWithin, links_checked, chains_checked};
ghost use Rattle.links.specs.ReachCounts.{FollowReady, Unmarked, Followed};

use case_file::{FIRSTS, all_at_most, first_of, next_of, records, threads};
use model::{MOST_LINES, RECORD_PLACES, Refusal};

// Whether each next number is a record's or 0.
fn nexts_ok(case: &[u8]) -> bool
    requires { Sized case.now }
    ensures { result ≡ nexts_in case.now (records case.now) }
{
    let most = records(case);
    (1..most + 1).all(|k| next_of(case, k) <= most)
}

// Whether each first and each next number is a record's or 0.
#[tactic(auto, using(crate::proofs::LinkNumbers::numbers_are_ok))]
fn numbers_ok(case: &[u8]) -> bool
    requires { ThreadsWithin case.now }
    ensures { result ≡ numbers_ok case.now }
{
    let threads = threads(case) as usize;
    all_at_most(case, FIRSTS, 0, threads, records(case)) && nexts_ok(case)
}

// Follows the chain of thread t and marks what it reaches, each record with 1: how many lines the chain has, or 6 if it comes to a
// record that is marked.
fn follow(case: &[u8], t: usize, reached: &mut [u8]) -> Result<usize, Refusal>
    requires { FollowReady case.now t reached.old }
    ensures { Followed case.now t reached.old reached.new result }
{
    let mut n = 0;
    let mut k = first_of(case, t);
    while k != 0 {
        if reached[k] != 0 {
            return Err(Refusal::Links);
        }
        reached[k] = 1;
        k = next_of(case, k);
        n += 1;
    }
    Ok(n)
}

// The rest of 6, then 7 and 8, in one walk along all chains.
fn check_chains(case: &[u8], reached: &mut [u8]) -> Result<(), Refusal>
    requires { Unmarked case.now reached.old }
    ensures { result ≡ chains_checked case.now }
{
    let threads = threads(case) as usize;
    let most = records(case);
    let mut lines = 0;
    let mut few = true;
    for t in 0..threads {
        let n = follow(case, t, reached)?;
        lines += n;
        few &= n <= MOST_LINES;
    }
    if lines < most {
        return Err(Refusal::Unreached);
    }
    Refusal::Lines.unless(few)
}

// 6 to 8.
#[tactic(auto, using(laws::proofs::OnCase::check_passed, crate::proofs::LinkNumbers::numbers_link))]
pub fn check(case: &[u8]) -> Result<(), Refusal>
    requires { ThreadsWithin case.now }
    ensures { result ≡ links_checked case.now }
{
    Refusal::Links.unless(numbers_ok(case))?;
    // Numbers and no flags, since what is proved counts them (`ReachCounts.count_lines`).
    let mut reached = [0u8; RECORD_PLACES];
    check_chains(case, &mut reached)
}
