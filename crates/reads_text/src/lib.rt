// What a line reads, as text: a term is what the line finds in a local, or in an item by the block that it is in.
#![tactic(auto)]

ghost use Rattle.model.specs.CaseFile.{Case};
ghost use Rattle.smt.specs.Spelling.{formula_text};
ghost use Rattle.script.specs.Assertions.{sources_of, own_blocks, read_before, read_item, read_name};
ghost use Rattle.case_file.specs.Records.{as_line};
ghost use Rattle.spell.specs.Spelt.{Puts};
ghost use Rattle.spell.specs.Atoms.{atom_term};
ghost use Rattle.linked.specs.Shape.{HasFrame};
ghost use Rattle.reads_text.specs.Blocks.{block_head, Headed};

use case_file::Record;
use expressions::local_with;
use linked::{Frame, block_variable, put_same, value_variable};
use model::LOCALS;
use spell::{Atom, Writer};

// If line k is in block i, x is the value of item g where it begins; else what comes after.
fn put_block(w: &mut Writer<'_>, frame: Frame, x: Atom, k: u16, g: u16, i: u16)
    ensures { (case : Case) → HasFrame case frame → Puts (block_head case (sources_of case) (atom_term x) k g i) w.old w.new }
{
    w.put(b"(ite ");
    w.put_equal(Atom::Variable(block_variable(k)), Atom::Constant(i));
    w.put(b" ");
    put_same(w, x, frame.shape.value_before(i, g), frame.sources);
    w.put(b" ");
}

// The same for each block of thread t; how many they are. (`step_by` asks for a step that is not 0, and no premise says that there are
// threads.)
fn put_blocks(w: &mut Writer<'_>, frame: Frame, x: Atom, k: u16, g: u16, t: u16) -> usize
    ensures { (case : Case) → HasFrame case frame → Headed case (sources_of case) (atom_term x) k g (own_blocks case t) w.old w.new result }
{
    let last = frame.shape.switches as u32;
    let step = frame.shape.threads as u32;
    let blocks = last as usize + 1;
    let mut i = t as u32;
    for many in 0..blocks {
        if last < i {
            return many;
        }
        put_block(w, frame, x, k, g, i as u16);
        i += step;
    }
    blocks
}

// x is the value of item g where the block of line k of thread t begins.
fn put_before(w: &mut Writer<'_>, frame: Frame, x: Atom, k: u16, g: u16, t: u16)
    ensures { (case : Case) → HasFrame case frame → Puts (formula_text (read_before case (sources_of case) (atom_term x) k g (own_blocks case t))) w.old w.new }
{
    let many = put_blocks(w, frame, x, k, g, t);
    w.put(b"true");
    w.put_closing(many);
}

// x is what line k, which has record l, reads of item g with copy p.
fn put_item(w: &mut Writer<'_>, frame: Frame, x: Atom, l: Record, k: u16, g: u16, p: u16)
    ensures { (case : Case) → HasFrame case frame → Puts (formula_text (read_item case (sources_of case) (atom_term x) (as_line l k) g p)) w.old w.new }
{
    if p == 0 {
        put_before(w, frame, x, k, g, l.thread);
        return;
    }
    w.put(b"(ite ");
    w.put_equal(
        Atom::Variable(block_variable(p)),
        Atom::Variable(block_variable(k)),
    );
    w.put(b" ");
    put_same(w, x, Atom::Variable(value_variable(p)), frame.sources);
    w.put(b" ");
    put_before(w, frame, x, k, g, l.thread);
    w.put(b")");
}

// x is what line k, which has record l, reads of a name with copy p.
pub fn put_name(w: &mut Writer<'_>, frame: Frame, x: Atom, l: Record, k: u16, name: usize, p: u16)
    ensures { (case : Case) → HasFrame case frame → Puts (formula_text (read_name case (sources_of case) (atom_term x) (as_line l k) name p)) w.old w.new }
{
    if name < LOCALS {
        put_same(w, x, local_with(p), frame.sources);
        return;
    }
    let g = name - LOCALS;
    if g < frame.shape.items as usize {
        put_item(w, frame, x, l, k, g as u16, p);
        return;
    }
    w.put_equal(x, Atom::Constant(0));
}
