// Lines handed on one by one: for a builder that makes a thread's lines front to back, the copies of each line's names, and what is held
// after it.
#![tactic(auto)]

ghost use Rattle.std.specs.Prelude.{◌≡◌};
ghost use Rattle.model.specs.Accept.{counts_ok};
ghost use Rattle.model.specs.Taking.{number_ok, taken, taken_into};
ghost use Rattle.builder.specs.Handed.{record_handed};

use case_file::Record;
use model::{Copies, Kind, MOST_GLOBALS, MOST_MUTEXES, MOST_RECORDS, NAMES, Refusal};
use rules::fields_ok;

// How many fields a record has: next, kind, guard, target, op, a, b and c.
pub const FIELDS: usize = 8;

// A line of a case with so many globals and mutexes: refusals 4, 6 and 9; else the copies of its names, and it is held for its target.
#[tactic(auto, unfolding(model::specs::Taking::taken, model::specs::Taking::taken_into))]
pub fn take_line(
    globals: u16,
    mutexes: u16,
    number: u16,
    fields: &[u16; FIELDS],
    held: &mut [u16; NAMES],
) -> Result<Copies, Refusal>
    ensures value { result ≡ taken globals mutexes number fields.now held.old }
    ensures held_after { held.new ≡ taken_into globals mutexes number fields.now held.old }
{
    Refusal::Counts.unless(counts_ok(globals, mutexes))?;
    Refusal::Links.unless(number_ok(number))?;
    let l = record_of(fields);
    Refusal::Fields(number).unless(fields_ok(l, globals, mutexes))?;
    Ok(copies::take_line(held, globals as usize, l, number))
}

// 4
fn counts_ok(globals: u16, mutexes: u16) -> bool
    ensures { result ≡ counts_ok globals mutexes }
{
    globals <= MOST_GLOBALS && mutexes <= MOST_MUTEXES
}

// 6: whether a record can have the number.
fn number_ok(number: u16) -> bool
    ensures { result ≡ number_ok number }
{
    (1..=MOST_RECORDS).contains(&(number as usize))
}

// The record by its fields, named one by one as `record_at` names them: to hand those on as an array first is no plainer. Which thread it
// is in makes no difference.
fn record_of(fields: &[u16; FIELDS]) -> Record
    ensures { result ≡ record_handed fields.now }
{
    Record {
        thread: 0,
        kind_number: fields[1],
        kind: Kind::from(fields[1]),
        guard: fields[2],
        target: fields[3],
        op: fields[4],
        a: fields[5],
        b: fields[6],
        c: fields[7],
    }
}
