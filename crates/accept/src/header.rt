// Checks 1 to 5: the size of a case and its header.
ghost use Rattle.std.specs.Prelude.{◌≡◌};
ghost use Rattle.model.specs.Accept.{size_ok, threads_ok, switches_ok, items_ok, absent_ok};
ghost use Rattle.laws.specs.Sized.{Sized};

use case_file::{FIRSTS, INITIALS, all_at_most, globals, mutexes, switches, threads};
use model::{HEADER_BYTES, MOST_RECORDS, RECORD_BYTES, THREADS};

// 1
pub fn size_ok(case: &[u8]) -> bool
    ensures { result ≡ size_ok case.now }
{
    let n = case.len();
    if n < HEADER_BYTES {
        return false;
    }
    let bytes = n - HEADER_BYTES;
    bytes % RECORD_BYTES == 0 && bytes / RECORD_BYTES <= MOST_RECORDS
}

// 2
pub fn threads_ok(case: &[u8]) -> bool
    requires { Sized case.now }
    ensures { result ≡ threads_ok case.now }
{
    (model::LEAST_THREADS..=model::MOST_THREADS).contains(&threads(case))
}

// 3
pub fn switches_ok(case: &[u8]) -> bool
    requires { Sized case.now }
    ensures { result ≡ switches_ok case.now }
{
    switches(case) <= model::MOST_SWITCHES
}

// 4
pub fn items_ok(case: &[u8]) -> bool
    requires { Sized case.now }
    ensures { result ≡ items_ok case.now }
{
    globals(case) <= model::MOST_GLOBALS && mutexes(case) <= model::MOST_MUTEXES
}

// 5
#[tactic(auto, using(crate::proofs::Absent::absent_is_ok))]
pub fn absent_ok(case: &[u8]) -> bool
    requires { Sized case.now }
    ensures { result ≡ absent_ok case.now }
{
    let threads = threads(case) as usize;
    let globals = globals(case) as usize;
    all_at_most(case, FIRSTS, threads, THREADS, 0)
        && all_at_most(case, INITIALS, globals, model::MOST_GLOBALS as usize, 0)
}
