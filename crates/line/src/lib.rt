// What one line names, reads and does. A record knows its thread; its number makes no difference here, and the contracts are for all.
#![tactic(auto)]

ghost use Rattle.std.specs.Prelude.{◌≡◌, ℕ, ◌<◌, ◌≤◌, true, List, take, if◌then◌else◌, nat_eq};
ghost use Rattle.model.specs.Word.{bit};
ghost use Rattle.model.specs.Limits.{most_threads, most_globals, most_items};
ghost use Rattle.model.specs.Line.{local_name, item_name, guard_name, operand_a, has_expression, operand_b, target_name, guard_true, unrun_value, operand_value};
ghost use Rattle.model.specs.Line as model;
ghost use Rattle.model.specs.Machine.{look, put_local, put_item};
ghost use Rattle.laws.specs.RowCounts.{has_eight, order_row_count, value_row_count};
ghost use Rattle.case_file.specs.Records.{as_line};
ghost use Rattle.line.specs.LineReads.{memory, reads_from, Expressed};

use case_file::{Case, Record};
use model::{ITEMS, Kind, LOCALS, NAMES};
use std::num::{wrapping_add_u16, wrapping_sub_u16};

// How many globals and how many items a case has: no more than a case can have.
#[derive(Clone, Copy)]
pub struct Counts {
    pub globals: usize,
    pub items: usize,
    pub ghost few_globals: { globals ≤ most_globals },
    pub ghost few_items: { items ≤ most_items },
}

impl Counts {
    ghost use Rattle.line.specs.CaseCounts.{HasCounts};

    // Those of an accepted case.
    pub fn of(case: &Case<'_>) -> Counts
        ensures { HasCounts case.now.bytes.now result }
    {
        Counts {
            globals: case_file::globals(case.bytes) as usize,
            items: case.items(),
        }
    }
}

// A local's name. Locals have the first names, items the next, and NAMES is no name.
pub fn local_name(x: u16) -> usize
    ensures { result ≡ local_name x }
{
    let name = x as usize;
    if name < LOCALS { name } else { NAMES }
}

// The name of the local that the guard tests.
pub fn guard_name(l: Record) -> usize
    ensures { (k : ℕ) → result ≡ guard_name (as_line l k) }
{
    let guard = l.guard;
    match guard {
        0 => NAMES,
        1..=16 => local_name(guard - 1),
        17..=32 => local_name(guard - 17),
        _ => NAMES,
    }
}

// The name that operand a reads.
#[tactic(auto, unfolding(model::specs::Line::name_of_a))]
pub fn operand_a(l: Record) -> usize
    ensures { (k : ℕ) → result ≡ operand_a (as_line l k) }
{
    match l.kind {
        Kind::Compute | Kind::Store | Kind::Assert | Kind::Assume => local_name(l.a),
        Kind::Load => LOCALS + l.a as usize,
        Kind::Input | Kind::Lock | Kind::Unlock => NAMES,
    }
}

// Whether a line of a kind has an expression.
pub fn has_expression(kind: Kind) -> bool
    ensures { result ≡ has_expression kind }
{
    matches!(
        kind,
        Kind::Compute | Kind::Store | Kind::Assert | Kind::Assume
    )
}

// The name that operand b reads; op 0 has no operand b.
#[tactic(auto, unfolding(model::specs::Line::name_of_b))]
pub fn operand_b(l: Record) -> usize
    ensures { (k : ℕ) → result ≡ operand_b (as_line l k) }
{
    if !has_expression(l.kind) {
        return NAMES;
    }
    let op = l.op;
    match op {
        0 => NAMES,
        _ => local_name(l.b),
    }
}

// The name of the target, in a case with so many globals.
#[tactic(auto, unfolding(model::specs::Line::name_of_target))]
pub fn target_name(globals: usize, l: Record) -> usize
    requires { globals ≤ most_globals }
    ensures { (k : ℕ) → result ≡ target_name globals (as_line l k) }
{
    let target = l.target;
    match l.kind {
        Kind::Compute | Kind::Load | Kind::Input => local_name(target),
        Kind::Store => LOCALS + target as usize,
        Kind::Assert | Kind::Assume => NAMES,
        Kind::Lock | Kind::Unlock => LOCALS + (globals + target as usize),
    }
}

// Whether a line of a kind is visible: load, store, lock and unlock are.
pub fn visible(kind: Kind) -> bool
    ensures { result ≡ model.visible kind }
{
    matches!(kind, Kind::Store | Kind::Load | Kind::Lock | Kind::Unlock)
}

// Whether a line, which is its thread's first or not, has an 8 in the table: an invisible line that is not the first has one.
pub fn stays(first: bool, kind: Kind) -> bool
    ensures { result ≡ has_eight first kind }
{
    !first && !visible(kind)
}

// How many order rows it has: a 3, its 8, and a 1 or a 2.
#[tactic(auto, unfolding(laws::specs::RowCounts::order_row_count))]
pub fn order_rows(first: bool, kind: Kind) -> usize
    ensures { result ≡ order_row_count first kind }
{
    if stays(first, kind) { 3 } else { 2 }
}

// How many other rows a line of a kind has: a 4, and a 5 for assume and lock.
#[tactic(auto, unfolding(laws::specs::RowCounts::value_row_count))]
pub fn value_rows(kind: Kind) -> usize
    ensures { result ≡ value_row_count kind }
{
    match kind {
        Kind::Assume | Kind::Lock => 2,
        _ => 1,
    }
}

// The value of a line of a kind that was not run: 1 for assert and assume, else 0.
#[tactic(auto, unfolding(model::specs::Line::unrun_value))]
pub fn unrun_value(kind: Kind) -> u16
    ensures { result ≡ unrun_value kind }
{
    match kind {
        Kind::Assert | Kind::Assume => 1,
        _ => 0,
    }
}

// The value of local x; what is no local has 0.
pub fn local_at(locals: &[u16; LOCALS], x: u16) -> u16
    ensures { (items : List ℕ) (count : ℕ) → count ≤ most_items → result ≡ look (memory locals.now items count) (local_name x) }
{
    let at = x as usize;
    if at < LOCALS { locals[at] } else { 0 }
}

// Whether the line is guarded in: of what it reads, only the guard's local matters. Document 01 names this form: match on ranges of
// guards.
pub fn guarded(locals: &[u16; LOCALS], l: Record) -> bool
    ensures { (G count given : ℕ) (items : List ℕ) (k : ℕ) → count ≤ most_items → result ≡ guard_true (as_line l k) (reads_from G count given locals.now items (as_line l k)) }
{
    let guard = l.guard;
    match guard {
        0 => true,
        1..=16 => local_at(locals, guard - 1) != 0,
        17..=32 => local_at(locals, guard - 17) == 0,
        _ => true,
    }
}

pub fn bit_of(x: bool) -> u16
    ensures { result ≡ bit x }
{
    u16::from(x)
}

// The value of an op. Document 01 names this form: match on op numbers.
fn apply(op: u16, x: u16, y: u16) -> u16
    ensures { result ≡ model.apply op x y }
{
    match op {
        0 => x,
        1 => wrapping_add_u16(x, y),
        2 => wrapping_sub_u16(x, y),
        3 => x & y,
        4 => x | y,
        5 => bit_of(x == y),
        6 => bit_of(x < y),
        _ => 0,
    }
}

// An operand's value: 16 is the constant. A local is read in any case, so that the choice needs no branch.
fn operand(locals: &[u16; LOCALS], x: u16, c: u16) -> u16
    ensures { (items : List ℕ) (count : ℕ) → count ≤ most_items → result ≡ operand_value x c (look (memory locals.now items count) (local_name x)) }
{
    let at = x as usize;
    let local = locals[at % LOCALS];
    if at < LOCALS {
        return local;
    }
    if at == LOCALS { c } else { 0 }
}

// The value of the line's expression, of a kind that has one.
pub fn expression_of(locals: &[u16; LOCALS], l: Record) -> u16
    ensures { Expressed locals.now l result }
{
    let x = operand(locals, l.a, l.c);
    let y = operand(locals, l.b, l.c);
    apply(l.op, x, y)
}

// What a mutex reads that the line's thread holds.
pub fn holder(l: Record) -> u16
    requires { l.thread < most_threads }
    ensures { (k : ℕ) → result ≡ model.holder (as_line l k) }
{
    l.thread + 1
}

// What a thread finds where it runs a line: its locals, the items, and how many of them the case has.
#[derive(Clone, Copy)]
pub struct Seen<'a> {
    pub locals: &'a [u16; LOCALS],
    pub items: &'a [u16; ITEMS],
    pub counts: Counts,
}

impl Seen<'_> {
    ghost use Rattle.line.specs.SeenReads.{Breaks};

    // The value of item g.
    pub fn item(&self, g: usize) -> u16
        ensures { (locals : List ℕ) → result ≡ look (memory locals self.now.items.now self.now.counts.items) (item_name g) }
    {
        if g < self.counts.items {
            self.items[g]
        } else {
            0
        }
    }

    // Whether a line, run with a true guard and with this value, violates.
    #[tactic(auto, unfolding(model::specs::Line::breaks))]
    pub fn breaks(&self, l: Record, value: u16) -> bool
        requires { l.thread < most_threads }
        ensures { Breaks self.now l value result }
    {
        match l.kind {
            Kind::Assert => value == 0,
            Kind::Unlock => {
                let g = self.counts.globals + l.target as usize;
                self.item(g) != holder(l)
            }
            _ => false,
        }
    }
}

// The record of the first line that violates, after record k, which may be the first; 0 for none, as model's
// `Machine.noted` has it.
pub fn noted(note: u16, k: u16, broken: bool) -> u16
    ensures { result ≡ (if nat_eq note 0 then (if broken then k else 0) else note) }
{
    if note != 0 {
        return note;
    }
    if broken { k } else { 0 }
}

// A name gets a value, if it is a local's.
pub fn put_local(locals: &mut [u16; LOCALS], name: usize, value: u16)
    ensures { locals.new ≡ put_local true name value locals.old }
{
    if name < LOCALS {
        locals[name] = value;
    }
}

// A name gets a value, if it is an item's, in a case with so many items.
pub fn put_item(items: &mut [u16; ITEMS], count: usize, name: usize, value: u16)
    requires { count ≤ most_items }
    ensures { take count items.new ≡ put_item true name value (take count items.old) }
{
    if name < LOCALS {
        return;
    }
    let g = name - LOCALS;
    if g < count {
        items[g] = value;
    }
}
