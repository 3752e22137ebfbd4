// The rows of the table: each is made by one function, and put into the slice by one. A line's rows are made from where it stands
// in its chain and from its copies.
#![tactic(auto)]

ghost use Rattle.std.specs.Prelude.{◌≡◌, ◌+◌, ◌*◌, ◌≤◌, [], ◌∷◌, eqb, length};
ghost use Rattle.model.specs.Table.{row, goal_row, numbers_of};
ghost use Rattle.laws.specs.RowCounts.{order_row_count, value_row_count};
ghost use Rattle.laws.specs.Written.{numbers_at, Put};
ghost use Rattle.rows.specs.Rows.{as_row, Follows, eight_of, PutsOrder, four_of, PutsDemand, PutsValues};

use case_file::Link;
use line::stays;
use model::{Copies, Kind};

// A row of the table, and how many numbers it has. Its kind is a number: the numbers of model's `Table.row`, which C gets (`menduvo_encode`).
#[derive(Clone, Copy)]
pub struct Constraint {
    pub kind: u16,
    pub one: u16,
    pub two: u16,
    pub three: u16,
    pub four: u16,
    pub five: u16,
}

pub const ROW: usize = 6;

// The row with these numbers.
fn row(kind: u16, one: u16, two: u16, three: u16, four: u16, five: u16) -> Constraint
    ensures { as_row result ≡ row kind one two three four five }
{
    Constraint {
        kind,
        one,
        two,
        three,
        four,
        five,
    }
}

// A row's six numbers, from a place on. They are stored one by one: copying them at once, from an array, makes the encoder half as fast.
pub fn put_row(table: &mut [u16], at: usize, w: Constraint)
    requires { at + 6 ≤ length table.old }
    ensures { table.new ≡ numbers_at table.old at (numbers_of (as_row w ∷ [])) }
{
    table[at] = w.kind;
    table[at + 1] = w.one;
    table[at + 2] = w.two;
    table[at + 3] = w.three;
    table[at + 4] = w.four;
    table[at + 5] = w.five;
}

// The 3 of a line.
fn thread_row(k: u16, threads: u16, t: u16) -> Constraint
    ensures { as_row result ≡ row 3 k threads t 0 0 }
{
    row(3, k, threads, t, 0, 0)
}

// The 8 of a line, with the line before it.
fn stay_row(link: Link) -> Constraint
    ensures { as_row result ≡ row 8 link.line link.before 0 0 0 }
{
    row(8, link.line, link.before, 0, 0, 0)
}

// The last order row of a line: a 1 with the next line, or a 2 with the last block.
fn follow_row(link: Link, last: u16) -> Constraint
    ensures { Follows link last (as_row result) }
{
    if link.next == 0 {
        row(2, link.line, last, 0, 0, 0)
    } else {
        row(1, link.line, link.next, 0, 0, 0)
    }
}

// The 8 of a line, where it has one; the place after it.
fn put_stay(table: &mut [u16], at: usize, link: Link) -> usize
    requires { at + length (numbers_of (eight_of link)) ≤ length table.old }
    ensures { Put (numbers_of (eight_of link)) table.old at table.new result }
{
    if stays(link.before == 0, link.kind) {
        let w = stay_row(link);
        put_row(table, at, w);
        return at + ROW;
    }
    at
}

// The order rows of a line of thread t; the place after them.
pub fn put_order(table: &mut [u16], at: usize, link: Link, threads: u16, last: u16, t: u16) -> usize
    requires { at + 6 * order_row_count (eqb link.before 0) link.kind ≤ length table.old }
    ensures { PutsOrder link threads last t table.old at table.new result }
{
    let three = thread_row(link.line, threads, t);
    put_row(table, at, three);
    let place = put_stay(table, at + ROW, link);
    let follow = follow_row(link, last);
    put_row(table, place, follow);
    place + ROW
}

// The 4 of line k, which has these copies.
fn value_row(k: u16, copies: Copies) -> Constraint
    ensures { as_row result ≡ four_of k copies }
{
    row(4, k, copies.guard, copies.a, copies.b, copies.target)
}

// A 5.
fn demand_row(k: u16, guard: u16, target: u16) -> Constraint
    ensures { as_row result ≡ row 5 k guard target 0 0 }
{
    row(5, k, guard, target, 0, 0)
}

// The 5 of a line, where its kind has one: a lock's has the guard copy and the target copy of the line's 4.
#[tactic(auto, using(crate::proofs::Made::none_put, crate::proofs::Made::assume_put, crate::proofs::Made::lock_put), unfolding(model::specs::Table::demand_rows, laws::specs::RowCounts::value_row_count))]
fn put_demand(table: &mut [u16], at: usize, kind: Kind, w: Constraint)
    requires { at + 6 * value_row_count kind ≤ length table.old + 6 }
    ensures { PutsDemand kind (as_row w) table.old at table.new }
{
    match kind {
        Kind::Assume => {
            let demand = demand_row(w.one, 0, 0);
            put_row(table, at, demand);
        }
        Kind::Lock => {
            let demand = demand_row(w.one, w.two, w.five);
            put_row(table, at, demand);
        }
        _ => {}
    }
}

// The 4 of line k, which has this kind and these copies, and its 5 where it has one.
pub fn put_values(table: &mut [u16], at: usize, k: u16, kind: Kind, copies: Copies)
    requires { at + 6 * value_row_count kind ≤ length table.old }
    ensures { PutsValues kind (four_of k copies) table.old at table.new }
{
    let w = value_row(k, copies);
    put_row(table, at, w);
    put_demand(table, at + ROW, kind, w);
}

// A 6.
pub fn item_row(item: u16, block: u16, copy: u16) -> Constraint
    ensures { as_row result ≡ row 6 item block copy 0 0 }
{
    row(6, item, block, copy, 0, 0)
}

// The 7.
pub fn goal_row() -> Constraint
    ensures { as_row result ≡ goal_row }
{
    row(7, 0, 0, 0, 0, 0)
}
