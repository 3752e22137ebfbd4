// The goal as text: some line violates. It has a part for each assert and each unlock, by thread and chain, which is the order of the
// 4s in the table; the copies that a part needs are those of its line's 4.
#![tactic(auto)]

ghost use Rattle.std.specs.Prelude.{◌≡◌, ◌≤◌, ◌<◌};
ghost use Rattle.model.specs.Limits.{most_threads, most_globals};
ghost use Rattle.model.specs.CaseFile as model;
ghost use Rattle.model.specs.CaseFile.{case_of};
ghost use Rattle.smt.specs.Spelling.{formula_text};
ghost use Rattle.script.specs.Assertions.{is_zero, value_of, sources_of, unlocks_as_stranger, some_thread_breaks};
ghost use Rattle.case_file.specs.Records.{as_line};
ghost use Rattle.spell.specs.Spelt.{Puts};
ghost use Rattle.linked.specs.Shape.{HasFrame};
ghost use Rattle.line_threads.specs.Threads.{row_at};
ghost use Rattle.goal_text.specs.Goal.{has_part, parts_of, or_head, part_head, row_head, goal_heads};

use case_file::{Case, Record, kind_of, records};
use line::holder;
use line_text::put_reads;
use line_threads::Tabled;
use linked::{Frame, put_not_run, value_variable};
use model::Kind;
use spell::{Atom, Writer};

// Whether a line of a kind has a part in the goal: an assert or an unlock.
fn has_part(kind: Kind) -> bool
    ensures { result ≡ has_part kind }
{
    matches!(kind, Kind::Assert | Kind::Unlock)
}

// How many parts the goal of an accepted case has.
fn part_count(case: &Case<'_>) -> usize
    ensures { result ≡ parts_of (case_of case.now.bytes.now).threads }
{
    let mut n = 0;
    for k in 1..records(case.bytes) + 1 {
        if has_part(kind_of(case.bytes, k)) {
            n += 1;
        }
    }
    n
}

// The value of line k is 0, or ..
fn put_zero(w: &mut Writer<'_>, k: u16)
    ensures { Puts (or_head (is_zero (value_of k))) w.old w.new }
{
    w.put(b"(or ");
    w.put_equal(Atom::Variable(value_variable(k)), Atom::Constant(0));
    w.put(b" ");
}

// Line k, which has record l, was run and unlocks what its thread does not hold, or ..
fn put_stranger(w: &mut Writer<'_>, frame: Frame, l: Record, k: u16, guard: u16, target: u16)
    requires globals_le_most_globals { frame.shape.globals ≤ most_globals }
    requires thread_lt_most_threads { l.thread < most_threads }
    ensures { (case : model.Case) → HasFrame case frame → Puts (or_head (unlocks_as_stranger case (sources_of case) (as_line l k) guard target)) w.old w.new }
{
    let own = holder(l);
    w.put(b"(or (not (or ");
    put_not_run(w, frame.shape, k);
    w.put(b" ");
    put_reads(w, frame, Atom::Constant(own), l, k, guard, target);
    w.put(b")) ");
}

// The part of line k by its kind, or ..; a line of another kind has none.
#[tactic(auto, unfolding(crate::specs::Goal::part_head))]
fn put_part(w: &mut Writer<'_>, frame: Frame, l: Record, k: u16, guard: u16, target: u16)
    requires globals_le_most_globals { frame.shape.globals ≤ most_globals }
    requires thread_lt_most_threads { l.thread < most_threads }
    ensures { (case : model.Case) → HasFrame case frame → Puts (part_head l.kind case (sources_of case) (as_line l k) guard target) w.old w.new }
{
    match l.kind {
        Kind::Assert => put_zero(w, k),
        Kind::Unlock => put_stranger(w, frame, l, k, guard, target),
        _ => {}
    }
}

// What row j of the table puts: a 4 the part of its line, any other row nothing.
fn put_head(w: &mut Writer<'_>, tabled: &Tabled<'_>, j: u16)
    requires { j < tabled.now.count }
    ensures { Puts (row_head (case_of tabled.now.case.bytes.now) (sources_of (case_of tabled.now.case.bytes.now)) (row_at tabled.now.table.now j)) w.old w.new }
{
    let row = tabled.row(j);
    if row.kind == 4 {
        let l = tabled.line(row.one);
        put_part(w, tabled.frame, l, row.one, row.two, row.five);
    }
}

// What all rows put.
fn put_heads(w: &mut Writer<'_>, tabled: &Tabled<'_>)
    ensures { Puts (goal_heads tabled.now.case.bytes.now) w.old w.new }
{
    for j in 0..tabled.count {
        put_head(w, tabled, j);
    }
}

// A 7: some line violates.
pub fn put_goal(w: &mut Writer<'_>, tabled: &Tabled<'_>)
    ensures { Puts (formula_text (some_thread_breaks (case_of tabled.now.case.bytes.now) (sources_of (case_of tabled.now.case.bytes.now)) (case_of tabled.now.case.bytes.now).threads)) w.old w.new }
{
    put_heads(w, tabled);
    w.put(b"false");
    w.put_closing(part_count(&tabled.case));
}
