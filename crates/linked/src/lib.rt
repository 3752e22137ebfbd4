// Equations with their links, and the variables of a case: what the assertions of lines and of block values share.
#![tactic(auto)]

ghost use Rattle.std.specs.Prelude.{◌≡◌, ◌+◌, ◌-◌, ◌*◌};
ghost use Rattle.model.specs.CaseFile.{Case};
ghost use Rattle.smt.specs.Term.{variable};
ghost use Rattle.smt.specs.Spelling.{formula_text};
ghost use Rattle.script.specs.Assertions.{sources_of, linked, same, value_before, not_run};
ghost use Rattle.spell.specs.Spelt.{Puts};
ghost use Rattle.spell.specs.Atoms.{atom_term};
ghost use Rattle.linked.specs.Links.{link_head, link_heads};
ghost use Rattle.linked.specs.Shape.{HasShape, HasSources, source_list, block_value_number};

use model::ITEMS;
use spell::{Atom, Writer};

// The most sources that a case has.
pub const SOURCES: usize = 6;

// The record numbers of a case's sources, so many of them: an array with a length beside it, since there is no heap.
#[derive(Clone, Copy)]
pub struct Sources {
    pub count: usize,
    pub records: [u16; SOURCES],
}

impl Sources {
    // The record numbers that there are.
    pub fn items(&self) -> &[u16]
        ensures { result.now ≡ source_list self.now }
    {
        &self.records[..self.count.min(SOURCES)]
    }
}

// What assertions need of a case: its counts, the block number of lines that were not run, twice its records, and its items' initial
// values.
#[derive(Clone, Copy)]
pub struct Shape {
    pub threads: u16,
    pub switches: u16,
    pub unrun: u16,
    pub globals: u16,
    pub items: u16,
    pub base: u16,
    pub first: [u16; ITEMS],
}

impl Shape {
    // The variable of item g at the end of block i.
    pub fn block_value(self, i: u16, g: u16) -> u32
        ensures { result ≡ block_value_number self i g }
    {
        u32::from(self.base) + u32::from(i) * u32::from(self.items) + u32::from(g)
    }

    // The value of item g where block i begins.
    #[tactic(auto, unfolding(script::specs::Assertions::value_before))]
    pub fn value_before(self, i: u16, g: u16) -> Atom
        ensures { (case : Case) → HasShape case self → atom_term result ≡ value_before case i g }
    {
        if i != 0 {
            return Atom::Variable(self.block_value(i - 1, g));
        }
        match self.first.get(usize::from(g)) {
            Some(value) => Atom::Constant(*value),
            None => Atom::Constant(0),
        }
    }
}

// What assertions need of a case.
#[derive(Clone, Copy)]
pub struct Frame {
    pub shape: Shape,
    pub sources: Sources,
}

// The variables of record k: its block number and its value.
pub fn block_variable(k: u16) -> u32
    ensures { result ≡ 2 * (k - 1) }
{
    2 * u32::from(k.saturating_sub(1))
}

pub fn value_variable(k: u16) -> u32
    ensures { result ≡ 2 * (k - 1) + 1 }
{
    block_variable(k) + 1
}

// Line k was not run.
pub fn put_not_run(w: &mut Writer<'_>, shape: Shape, k: u16)
    ensures { (case : Case) → HasShape case shape → Puts (formula_text (not_run case k)) w.old w.new }
{
    let block = Atom::Variable(block_variable(k));
    w.put_equal(block, Atom::Constant(shape.unrun));
}

// A link: both variables equal the source, or neither does.
fn put_link(w: &mut Writer<'_>, x: u32, y: u32, source: u16)
    ensures { Puts (link_head x y source) w.old w.new }
{
    let s = Atom::Variable(value_variable(source));
    w.put(b"(and (not (xor ");
    w.put_equal(Atom::Variable(x), s);
    w.put(b" ");
    w.put_equal(Atom::Variable(y), s);
    w.put(b")) ");
}

// The links of two variables, one after the other.
fn put_links(w: &mut Writer<'_>, x: u32, y: u32, sources: Sources)
    ensures { Puts (link_heads x y (source_list sources)) w.old w.new }
{
    for source in sources.items() {
        put_link(w, x, y, *source);
    }
}

// Two variables are equal, with their links.
fn put_linked(w: &mut Writer<'_>, x: u32, y: u32, sources: Sources)
    ensures { (case : Case) → HasSources case sources → Puts (formula_text (linked (sources_of case) (variable x) (variable y))) w.old w.new }
{
    put_links(w, x, y, sources);
    w.put_equal(Atom::Variable(x), Atom::Variable(y));
    w.put_closing(sources.items().len());
}

// Two atoms are equal, with links where both are variables.
#[tactic(auto, unfolding(script::specs::Assertions::same))]
pub fn put_same(w: &mut Writer<'_>, x: Atom, y: Atom, sources: Sources)
    ensures { (case : Case) → HasSources case sources → Puts (formula_text (same (sources_of case) (atom_term x) (atom_term y))) w.old w.new }
{
    match (x, y) {
        (Atom::Variable(k), Atom::Variable(j)) => put_linked(w, k, j, sources),
        _ => w.put_equal(x, y),
    }
}
