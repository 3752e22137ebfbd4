// What is read of an assignment: the block number and the value of a record, whether it was run, and the items' values where a block
// starts.
#![tactic(auto)]

ghost use Rattle.std.specs.Prelude.{◌≡◌, ◌-◌, ◌*◌, ◌≤◌};
ghost use Rattle.model.specs.Word.{word_size};
ghost use Rattle.model.specs.Limits.{most_switches, most_items};
ghost use Rattle.model.specs.CaseFile.{case_of};
ghost use Rattle.model.specs.Assignment.{was_run};
ghost use Rattle.laws.specs.Bounded.{Bounded};
ghost use Rattle.assignment.specs.Numbers.{record_block, record_value, Filled, number_from, StartOf, HasItems, ItemsFrom};

use case_file::{Case, first_items, records, switches};
use model::ITEMS;
use numbers::at;

// Where the two numbers of record k start.
fn start_of(k: u16) -> usize
    ensures { Bounded (2 * (k - 1)) (2 * (word_size - 1)) result }
{
    2 * (k as usize).saturating_sub(1)
}

// The block number of record k.
pub fn block_of(assignment: &[u16], k: u16) -> u16
    ensures { result ≡ record_block assignment.now k }
{
    at(assignment, start_of(k))
}

// The value of record k.
pub fn value_of(assignment: &[u16], k: u16) -> u16
    ensures { result ≡ record_value assignment.now k }
{
    at(assignment, start_of(k) + 1)
}

// Whether a line with block number i was run: a line that was not has n + 1. Nothing is read at a line before this is asked.
pub fn was_run(case: &Case<'_>, i: u16) -> bool
    ensures { result ≡ was_run (case_of case.now.bytes.now) i }
{
    i != switches(case.bytes) + 1
}

// As many numbers as there can be items, from a place on: the length is fixed, so that they are copied at once.
fn most_items_at(assignment: &[u16], place: usize) -> [u16; ITEMS]
    requires { HasItems assignment.now place }
    ensures { Filled (number_from assignment.now place) most_items result }
{
    let mut items = [0u16; ITEMS];
    items.copy_from_slice(&assignment[place..place + ITEMS]);
    items
}

// So many numbers of an assignment from a place on, as items' values.
fn items_at(assignment: &[u16], place: usize, count: usize) -> [u16; ITEMS]
    requires { ItemsFrom place count }
    ensures { Filled (number_from assignment.now place) count result }
{
    if place + ITEMS <= assignment.len() {
        return most_items_at(assignment, place);
    }
    let mut items = [0u16; ITEMS];
    for g in 0..count {
        items[g] = at(assignment, place + g);
    }
    items
}

// The items' values where block i starts.
pub fn start_of_block(case: &Case<'_>, assignment: &[u16], i: u16) -> [u16; ITEMS]
    requires { i ≤ most_switches }
    ensures { StartOf case.now.bytes.now assignment.now i result }
{
    if i == 0 {
        return first_items(case.bytes);
    }
    let count = case.items();
    let place = 2 * records(case.bytes) + (i as usize - 1) * count;
    items_at(assignment, place, count)
}
