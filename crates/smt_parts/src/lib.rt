// Parts of a case's text: its sources and its shape, the declarations, and the assertions of the order rows.
#![tactic(auto)]

ghost use Rattle.std.specs.Prelude.{ℕ, suc, List, ◌++◌};
ghost use Rattle.model.specs.CaseFile as model;
ghost use Rattle.model.specs.CaseFile.{case_of};
ghost use Rattle.smt.specs.Term.{bvurem, bvule, disjunction, constant, apply, test, join};
ghost use Rattle.smt.specs.Spelling.{ascii, formula_text, declaration, declarations};
ghost use Rattle.script.specs.Assertions.{equal, block_of, not_run};
ghost use Rattle.spell.specs.Spelt.{Puts};
ghost use Rattle.spell.specs.Atoms.{atom_term};
ghost use Rattle.linked.specs.Shape.{HasShape, HasSources, HasFrame};
ghost use Rattle.smt_parts.specs.Sources.{Found, with_source};

use case_file::{Case, first_items, globals, kind_of, records, switches, threads};
use linked::{Frame, SOURCES, Shape, Sources, block_variable, put_not_run};
use model::Kind;
use spell::{Atom, Writer};

// Record k of a kind is one more source where it is an input and there is room.
#[tactic(auto, unfolding(crate::specs::Sources::with_source))]
fn with_source(sources: Sources, kind: Kind, k: u16) -> Sources
    ensures { (xs : List ℕ) → Found xs sources → Found (with_source xs kind k) result }
{
    match kind {
        Kind::Input => one_more(sources, k),
        _ => sources,
    }
}

fn one_more(mut sources: Sources, k: u16) -> Sources
    ensures { (xs : List ℕ) → Found xs sources → Found (with_source xs Kind.Input k) result }
{
    let count = sources.count;
    if SOURCES <= count {
        return sources;
    }
    sources.records[count] = k;
    sources.count = count + 1;
    sources
}

// The sources of an accepted case.
pub fn sources_of(case: &Case<'_>) -> Sources
    ensures { HasSources (case_of case.now.bytes.now) result }
{
    let mut sources = Sources {
        count: 0,
        records: [0u16; SOURCES],
    };
    for k in 1..records(case.bytes) + 1 {
        sources = with_source(sources, kind_of(case.bytes, k), k as u16);
    }
    sources
}

// The shape of an accepted case.
pub fn shape_of(case: &Case<'_>) -> Shape
    ensures { HasShape (case_of case.now.bytes.now) result }
{
    Shape {
        threads: threads(case.bytes),
        switches: switches(case.bytes),
        unrun: switches(case.bytes) + 1,
        globals: globals(case.bytes),
        items: case.items() as u16,
        base: (2 * records(case.bytes)) as u16,
        first: first_items(case.bytes),
    }
}

// What assertions need of an accepted case.
pub fn frame_of(case: &Case<'_>) -> Frame
    ensures { HasFrame (case_of case.now.bytes.now) result }
{
    Frame {
        shape: shape_of(case),
        sources: sources_of(case),
    }
}

// The line that declares variable k.
fn put_declaration(w: &mut Writer<'_>, k: u16)
    ensures { Puts (declaration k) w.old w.new }
{
    w.put(b"(declare-fun ");
    w.put_variable(u32::from(k));
    w.put(b" () (_ BitVec 16))\n");
}

// The lines that declare so many variables.
pub fn put_declarations(w: &mut Writer<'_>, count: u16)
    ensures { Puts (declarations 0 count) w.old w.new }
{
    for k in 0..count {
        put_declaration(w, k);
    }
}

// The block number of record k modulo the number of threads is its thread.
fn put_own(w: &mut Writer<'_>, k: u16, threads: u16, t: u16)
    ensures { Puts (formula_text (equal (apply bvurem (block_of k) (constant threads)) (constant t))) w.old w.new }
{
    let block = Atom::Variable(block_variable(k));
    w.put(b"(= (bvurem ");
    w.put_two(block, Atom::Constant(threads));
    w.put(b" ");
    w.put_constant(t);
    w.put(b")");
}

// Record k was not run, as the first part of an or.
fn put_unrun_or(w: &mut Writer<'_>, shape: Shape, k: u16)
    ensures { (case : model.Case) → HasShape case shape → Puts (ascii "(or " ++ (formula_text (not_run case k) ++ ascii " ")) w.old w.new }
{
    w.put(b"(or ");
    put_not_run(w, shape, k);
    w.put(b" ");
}

// A 3: record k was not run, or its block is its thread's.
pub fn put_three(w: &mut Writer<'_>, shape: Shape, k: u16, threads: u16, t: u16)
    ensures { (case : model.Case) → HasShape case shape → Puts (formula_text (join disjunction (not_run case k) (equal (apply bvurem (block_of k) (constant threads)) (constant t)))) w.old w.new }
{
    put_unrun_or(w, shape, k);
    put_own(w, k, threads, t);
    w.put(b")");
}

// An 8: a record was not run, or its block is that of the earlier record, the line before it.
pub fn put_eight(w: &mut Writer<'_>, shape: Shape, later: u16, earlier: u16)
    ensures { (case : model.Case) → HasShape case shape → Puts (formula_text (join disjunction (not_run case later) (equal (block_of later) (block_of earlier)))) w.old w.new }
{
    let block = Atom::Variable(block_variable(later));
    let before = Atom::Variable(block_variable(earlier));
    put_unrun_or(w, shape, later);
    w.put_equal(block, before);
    w.put(b")");
}

// The first atom is at most the second.
fn put_at_most(w: &mut Writer<'_>, x: Atom, y: Atom)
    ensures { Puts (formula_text (test bvule (atom_term x) (atom_term y))) w.old w.new }
{
    w.put(b"(bvule ");
    w.put_two(x, y);
}

// A 1: the block number of record k is at most that of record l.
pub fn put_one(w: &mut Writer<'_>, k: u16, l: u16)
    ensures { Puts (formula_text (test bvule (block_of k) (block_of l))) w.old w.new }
{
    let block = Atom::Variable(block_variable(k));
    let next = Atom::Variable(block_variable(l));
    put_at_most(w, block, next);
}

// A 2: the block number of record k is at most n + 1.
pub fn put_last(w: &mut Writer<'_>, shape: Shape, k: u16)
    ensures { (case : model.Case) → HasShape case shape → Puts (formula_text (test bvule (block_of k) (constant (suc case.n)))) w.old w.new }
{
    let block = Atom::Variable(block_variable(k));
    put_at_most(w, block, Atom::Constant(shape.unrun));
}
