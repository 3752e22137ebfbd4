// The assertions of a line as text: its value, what it reads of its mutex, and what an assume or a lock demands.
#![tactic(auto)]

ghost use Rattle.std.specs.Prelude.{◌≡◌, ◌≤◌, ◌<◌};
ghost use Rattle.model.specs.Limits.{most_threads, most_globals};
ghost use Rattle.model.specs.CaseFile.{Case, line_at};
ghost use Rattle.smt.specs.Term.{disjunction, join};
ghost use Rattle.smt.specs.Spelling.{formula_text};
ghost use Rattle.script.specs.Assertions.{sources_of, guarded_in, guarded_out, not_run, line_assertion, value_assertion, mutex_reads, demand_assertion};
ghost use Rattle.case_file.specs.Records.{as_line};
ghost use Rattle.spell.specs.Spelt.{Puts};
ghost use Rattle.spell.specs.Atoms.{atom_term};
ghost use Rattle.linked.specs.Shape.{HasFrame};

use case_file::Record;
use expressions::{operand, put_guard, put_is_expression, put_is_truth};
use line::{holder, operand_a, target_name, unrun_value};
use linked::{Frame, put_not_run, value_variable};
use model::{Copies, Kind};
use reads_text::put_name;
use spell::{Atom, Writer};

// The value of line k, which has record l, where its guard is true.
fn put_in(w: &mut Writer<'_>, frame: Frame, l: Record, k: u16, copies: Copies)
    requires { l.thread < most_threads }
    ensures { (case : Case) → HasFrame case frame → Puts (formula_text (guarded_in l.kind case (sources_of case) (as_line l k) copies.a copies.b)) w.old w.new }
{
    let v = Atom::Variable(value_variable(k));
    let x = operand(l.a, l.c, copies.a);
    let y = operand(l.b, l.c, copies.b);
    match l.kind {
        Kind::Compute | Kind::Store => put_is_expression(w, v, l.op, x, y, frame.sources),
        Kind::Load => put_name(w, frame, v, l, k, operand_a(l), copies.a),
        Kind::Input => w.put(b"true"),
        Kind::Assert | Kind::Assume => put_is_truth(w, v, l.op, x, y, frame.sources),
        Kind::Lock => w.put_equal(v, Atom::Constant(holder(l))),
        Kind::Unlock => w.put_equal(v, Atom::Constant(0)),
    }
}

// The value of line k where its guard is false.
fn put_out(w: &mut Writer<'_>, frame: Frame, l: Record, k: u16, target: u16)
    requires { frame.shape.globals ≤ most_globals }
    ensures { (case : Case) → HasFrame case frame → Puts (formula_text (guarded_out l.kind case (sources_of case) (as_line l k) target)) w.old w.new }
{
    let v = Atom::Variable(value_variable(k));
    let name = target_name(frame.shape.globals as usize, l);
    match l.kind {
        Kind::Assert | Kind::Assume => w.put_equal(v, Atom::Constant(1)),
        _ => put_name(w, frame, v, l, k, name, target),
    }
}

// The value of line k where it was run.
fn put_line(w: &mut Writer<'_>, frame: Frame, l: Record, k: u16, copies: Copies)
    requires globals_le_most_globals { frame.shape.globals ≤ most_globals }
    requires thread_lt_most_threads { l.thread < most_threads }
    ensures { (case : Case) → HasFrame case frame → Puts (formula_text (line_assertion case (sources_of case) (as_line l k) copies.guard copies.a copies.b copies.target)) w.old w.new }
{
    if l.guard == 0 {
        put_in(w, frame, l, k, copies);
        return;
    }
    w.put(b"(ite ");
    put_guard(w, l.guard, copies.guard);
    w.put(b" ");
    put_in(w, frame, l, k, copies);
    w.put(b" ");
    put_out(w, frame, l, k, copies.target);
    w.put(b")");
}

// A 4: line k, which has record l, was not run and has the value of such a line, or has its own.
pub fn put_four(w: &mut Writer<'_>, frame: Frame, l: Record, k: u16, copies: Copies)
    requires globals_le_most_globals { frame.shape.globals ≤ most_globals }
    requires thread_lt_most_threads { l.thread < most_threads }
    ensures { (case : Case) → HasFrame case frame → as_line l k ≡ line_at case k → Puts (formula_text (value_assertion case (sources_of case) k copies.guard copies.a copies.b copies.target)) w.old w.new }
{
    let v = Atom::Variable(value_variable(k));
    w.put(b"(ite ");
    put_not_run(w, frame.shape, k);
    w.put(b" ");
    w.put_equal(v, Atom::Constant(unrun_value(l.kind)));
    w.put(b" ");
    put_line(w, frame, l, k, copies);
    w.put(b")");
}

// Where its guard is true, line k reads x of its mutex.
pub fn put_reads(
    w: &mut Writer<'_>,
    frame: Frame,
    x: Atom,
    l: Record,
    k: u16,
    asked: u16,
    target: u16,
)
    requires { frame.shape.globals ≤ most_globals }
    ensures { (case : Case) → HasFrame case frame → Puts (formula_text (mutex_reads case (sources_of case) (atom_term x) (as_line l k) asked target)) w.old w.new }
{
    let name = target_name(frame.shape.globals as usize, l);
    let guard = l.guard;
    if guard == 0 {
        put_name(w, frame, x, l, k, name, target);
        return;
    }
    w.put(b"(=> ");
    put_guard(w, guard, asked);
    w.put(b" ");
    put_name(w, frame, x, l, k, name, target);
    w.put(b")");
}

// What line k demands where it was run.
#[tactic(auto, unfolding(script::specs::Assertions::demand_assertion, smt::specs::Spelling::formula_text))]
fn put_demand(w: &mut Writer<'_>, frame: Frame, l: Record, k: u16, guard: u16, target: u16)
    requires { frame.shape.globals ≤ most_globals }
    ensures { (case : Case) → HasFrame case frame → Puts (formula_text (demand_assertion l.kind case (sources_of case) (as_line l k) guard target)) w.old w.new }
{
    match l.kind {
        Kind::Assume => w.put_equal(Atom::Variable(value_variable(k)), Atom::Constant(1)),
        Kind::Lock => put_reads(w, frame, Atom::Constant(0), l, k, guard, target),
        _ => w.put(b"true"),
    }
}

// A 5: line k, which has record l, was not run, or what it demands is so.
pub fn put_five(w: &mut Writer<'_>, frame: Frame, l: Record, k: u16, guard: u16, target: u16)
    requires { frame.shape.globals ≤ most_globals }
    ensures { (case : Case) → HasFrame case frame → as_line l k ≡ line_at case k → Puts (formula_text (join disjunction (not_run case k) (demand_assertion (line_at case k).kind case (sources_of case) (line_at case k) guard target))) w.old w.new }
{
    w.put(b"(or ");
    put_not_run(w, frame.shape, k);
    w.put(b" ");
    put_demand(w, frame, l, k, guard, target);
    w.put(b")");
}
