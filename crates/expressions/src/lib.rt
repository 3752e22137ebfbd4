// Operands, guards, expressions and the facts that stand beside comparisons, as text. Document 01 names the form of what follows: match on op
// numbers and on ranges of guards.
#![tactic(auto)]

ghost use Rattle.std.specs.Prelude.{◌≡◌, length};
ghost use Rattle.model.specs.CaseFile.{Line, Case};
ghost use Rattle.smt.specs.Term.{constant, choice, test};
ghost use Rattle.smt.specs.Spelling.{operation_word, term_text, formula_text};
ghost use Rattle.script.specs.Assertions.{equal, is_zero, local_with, sources_of, guard_true, operand as operandTerm};
ghost use Rattle.script.specs.Assertions.{comparison, operation, expression, is_expression, is_truth};
ghost use Rattle.spell.specs.Spelt.{Puts};
ghost use Rattle.spell.specs.Atoms.{atom_term};
ghost use Rattle.linked.specs.Shape.{HasSources, source_list};
ghost use Rattle.expressions.specs.Facts.{fact_head, fact_heads_with, fact_heads, has_facts, facts_before, facts_behind};

use linked::{Sources, put_same, value_variable};
use model::LOCALS;
use spell::{Atom, Writer};

// The value of a local with copy p.
#[tactic(auto, unfolding(script::specs::Assertions::local_with))]
pub fn local_with(p: u16) -> Atom
    ensures { atom_term result ≡ local_with p }
{
    if p == 0 {
        return Atom::Constant(0);
    }
    Atom::Variable(value_variable(p))
}

// Operand x of a line whose constant is c, with copy p.
#[tactic(auto, unfolding(script::specs::Assertions::operand))]
pub fn operand(x: u16, c: u16, p: u16) -> Atom
    ensures { atom_term result ≡ operandTerm x c p }
{
    if usize::from(x) == LOCALS {
        return Atom::Constant(c);
    }
    local_with(p)
}

// The guard of a line, with copy p of its local, is true.
#[tactic(auto, unfolding(script::specs::Assertions::guard_true))]
pub fn put_guard(w: &mut Writer<'_>, guard: u16, p: u16)
    ensures { (l : Line) → l.guard ≡ guard → Puts (formula_text (guard_true l p)) w.old w.new }
{
    let x = local_with(p);
    match guard {
        0..=16 => {
            w.put(b"(not ");
            w.put_equal(x, Atom::Constant(0));
            w.put(b")");
        }
        _ => w.put_equal(x, Atom::Constant(0)),
    }
}

// The comparison of two atoms.
#[tactic(auto, unfolding(script::specs::Assertions::comparison))]
fn put_comparison(w: &mut Writer<'_>, op: u16, x: Atom, y: Atom)
    ensures { Puts (formula_text (test (comparison op) (atom_term x) (atom_term y))) w.old w.new }
{
    if op == 5 {
        w.put_equal(x, y);
    } else {
        w.put(b"(bvult ");
        w.put_two(x, y);
    }
}

// The word of an operation.
#[tactic(auto, unfolding(script::specs::Assertions::operation))]
fn put_operation(w: &mut Writer<'_>, op: u16)
    ensures { Puts (operation_word (operation op)) w.old w.new }
{
    match op {
        1 => w.put(b"(bvadd "),
        2 => w.put(b"(bvsub "),
        3 => w.put(b"(bvand "),
        _ => w.put(b"(bvor "),
    }
}

// The expression of two atoms.
#[tactic(auto, unfolding(script::specs::Assertions::expression))]
pub fn put_expression(w: &mut Writer<'_>, op: u16, x: Atom, y: Atom)
    ensures { Puts (term_text (expression op (atom_term x) (atom_term y))) w.old w.new }
{
    match op {
        0 => w.put_atom(x),
        1..=4 => {
            put_operation(w, op);
            w.put_two(x, y);
        }
        _ => {
            w.put(b"(ite ");
            put_comparison(w, op, x, y);
            w.put(b" #x0001 #x0000)");
        }
    }
}

// A fact: where x equals one source and y another, x and y compare as the sources do.
fn put_fact(w: &mut Writer<'_>, op: u16, x: Atom, y: Atom, first: u16, second: u16)
    ensures { Puts (fact_head (comparison op) (atom_term x) (atom_term y) first second) w.old w.new }
{
    let s = Atom::Variable(value_variable(first));
    let u = Atom::Variable(value_variable(second));
    w.put(b"(and (=> (and ");
    w.put_equal(x, s);
    w.put(b" ");
    w.put_equal(y, u);
    w.put(b") (not (xor ");
    put_comparison(w, op, x, y);
    w.put(b" ");
    put_comparison(w, op, s, u);
    w.put(b"))) ");
}

// The facts of one first source with each second one.
fn put_facts_with(w: &mut Writer<'_>, op: u16, x: Atom, y: Atom, first: u16, sources: Sources)
    ensures { Puts (fact_heads_with (comparison op) (atom_term x) (atom_term y) first (source_list sources)) w.old w.new }
{
    for second in sources.items() {
        put_fact(w, op, x, y, first, *second);
    }
}

// The facts of each two sources.
fn put_facts(w: &mut Writer<'_>, op: u16, x: Atom, y: Atom, sources: Sources)
    ensures { Puts (fact_heads (comparison op) (atom_term x) (atom_term y) (source_list sources) (source_list sources)) w.old w.new }
{
    for first in sources.items() {
        put_facts_with(w, op, x, y, *first, sources);
    }
}

// Whether facts stand beside an expression: where it compares two variables.
#[tactic(auto, unfolding(crate::specs::Facts::has_facts))]
fn has_facts(op: u16, x: Atom, y: Atom) -> bool
    ensures { result ≡ has_facts op (atom_term x) (atom_term y) }
{
    5 <= op && matches!((x, y), (Atom::Variable(_), Atom::Variable(_)))
}

// What stands before an equation with an expression, and what behind.
#[tactic(auto, unfolding(crate::specs::Facts::facts_before))]
fn put_facts_before(w: &mut Writer<'_>, op: u16, x: Atom, y: Atom, sources: Sources)
    ensures { Puts (facts_before (source_list sources) op (atom_term x) (atom_term y)) w.old w.new }
{
    if has_facts(op, x, y) {
        put_facts(w, op, x, y, sources);
    }
}

#[tactic(auto, unfolding(crate::specs::Facts::facts_behind))]
fn put_facts_behind(w: &mut Writer<'_>, op: u16, x: Atom, y: Atom, sources: Sources)
    ensures { Puts (facts_behind (length (source_list sources)) op (atom_term x) (atom_term y)) w.old w.new }
{
    if has_facts(op, x, y) {
        let many = sources.items().len();
        w.put_closing(many * many);
    }
}

// v is the expression.
fn put_value_of(w: &mut Writer<'_>, v: Atom, op: u16, x: Atom, y: Atom)
    ensures { Puts (formula_text (equal (atom_term v) (expression op (atom_term x) (atom_term y)))) w.old w.new }
{
    w.put(b"(= ");
    w.put_atom(v);
    w.put(b" ");
    put_expression(w, op, x, y);
    w.put(b")");
}

// v is 1 if the expression is not zero, else 0.
fn put_truth_of(w: &mut Writer<'_>, v: Atom, op: u16, x: Atom, y: Atom)
    ensures { Puts (formula_text (equal (atom_term v) (choice (is_zero (expression op (atom_term x) (atom_term y))) (constant 0) (constant 1)))) w.old w.new }
{
    w.put(b"(= ");
    w.put_atom(v);
    w.put(b" (ite (= ");
    put_expression(w, op, x, y);
    w.put(b" #x0000) #x0000 #x0001))");
}

// v is the expression, with the facts that stand beside it.
#[tactic(auto, unfolding(script::specs::Assertions::is_expression))]
pub fn put_is_expression(w: &mut Writer<'_>, v: Atom, op: u16, x: Atom, y: Atom, sources: Sources)
    ensures { (case : Case) → HasSources case sources → Puts (formula_text (is_expression (sources_of case) (atom_term v) op (atom_term x) (atom_term y))) w.old w.new }
{
    if op == 0 {
        put_same(w, v, x, sources);
    } else {
        put_facts_before(w, op, x, y, sources);
        put_value_of(w, v, op, x, y);
        put_facts_behind(w, op, x, y, sources);
    }
}

// v is 1 if the expression is not zero, else 0, with the facts that stand beside it.
pub fn put_is_truth(w: &mut Writer<'_>, v: Atom, op: u16, x: Atom, y: Atom, sources: Sources)
    ensures { (case : Case) → HasSources case sources → Puts (formula_text (is_truth (sources_of case) (atom_term v) op (atom_term x) (atom_term y))) w.old w.new }
{
    put_facts_before(w, op, x, y, sources);
    put_truth_of(w, v, op, x, y);
    put_facts_behind(w, op, x, y, sources);
}
