// The assertion of a 6 as text: walking back over the copies of an item.
#![tactic(auto)]

ghost use Rattle.std.specs.Prelude.{◌≡◌, ℕ, List, replicate};
ghost use Rattle.model.specs.Limits.{most_lines, record_places};
ghost use Rattle.model.specs.CaseFile.{Case, case_of};
ghost use Rattle.smt.specs.Spelling.{formula_text};
ghost use Rattle.script.specs.Assertions.{sources_of};
ghost use Rattle.laws.specs.Accepted.{Accepted};
ghost use Rattle.spell.specs.Spelt.{Puts};
ghost use Rattle.linked.specs.Shape.{HasFrame};
ghost use Rattle.walk_text.specs.Walk.{PreviousCopies, walk_copies, copy_head, HeadsPut};
ghost use Rattle.walk_text.specs.Previous.{HasTable, noted_row, noted_from};

use linked::{Frame, block_variable, put_same, value_variable};
use model::{MOST_LINES, RECORD_PLACES};
use numbers::at;
use rows::ROW;
use spell::{Atom, Writer};

// The kind of the rows that have a line's copies, a number as in `rows::Constraint`, and the place of the target's copy in them.
const VALUE_ROW: u16 = 4;

const TARGET_COPY: u16 = 5;

// Row j of a table: one of this kind has, at this place, what is noted for its line.
fn note_row(table: &[u16], j: u16, kind: u16, place: u16, notes: &mut [u16])
    ensures { notes.new ≡ noted_row kind place table.now j notes.old }
{
    let from = ROW * j as usize;
    if at(table, from) != kind {
        return;
    }
    let line = at(table, from + 1) as usize;
    // Of a slice that `get_mut` lends from, a proof knows the length alone.
    if line < notes.len() {
        notes[line] = at(table, from + place as usize);
    }
}

// For each line of a case, by record number, what the rows of this kind have at this place: from a table of so many rows.
pub fn note_rows(table: &[u16], count: u16, kind: u16, place: u16) -> [u16; RECORD_PLACES]
    ensures { result ≡ noted_from kind place table.now 0 count (replicate record_places 0) }
{
    let mut notes = [0u16; RECORD_PLACES];
    for j in 0..count {
        note_row(table, j, kind, place, &mut notes);
    }
    notes
}

// For each line of a case, by record number, the copy of its target before it: from the table that the encoder has written, which has
// so many rows.
pub fn previous_copies(table: &[u16], count: u16) -> [u16; RECORD_PLACES]
    ensures { (bytes : List ℕ) → Accepted bytes → HasTable (case_of bytes) table.now count → PreviousCopies (case_of bytes) result }
{
    note_rows(table, count, VALUE_ROW, TARGET_COPY)
}

// Whether copy p is in block i; where it is, item g has its value at the end of the block. What holds otherwise comes after.
fn put_copy(w: &mut Writer<'_>, frame: Frame, i: u16, g: u16, p: u16)
    ensures { (case : Case) → HasFrame case frame → Puts (copy_head case (sources_of case) i g p) w.old w.new }
{
    let ending = Atom::Variable(frame.shape.block_value(i, g));
    w.put(b"(ite ");
    w.put_equal(Atom::Variable(block_variable(p)), Atom::Constant(i));
    w.put(b" ");
    put_same(w, ending, Atom::Variable(value_variable(p)), frame.sources);
    w.put(b" ");
}

// The same for copy `last` and all copies before it; how many there are.
fn put_copies(
    w: &mut Writer<'_>,
    frame: Frame,
    previous: &[u16],
    i: u16,
    g: u16,
    last: u16,
) -> usize
    ensures { HeadsPut frame previous.now i g last w.old w.new result }
{
    let mut p = last;
    for many in 0..MOST_LINES {
        if p == 0 {
            return many;
        }
        put_copy(w, frame, i, g, p);
        p = at(previous, p as usize);
    }
    MOST_LINES
}

// The copies of item g from `last` back, each asked whether it is in block i.
pub fn put_walk(w: &mut Writer<'_>, frame: Frame, previous: &[u16], i: u16, g: u16, last: u16)
    ensures { (case : Case) → HasFrame case frame → Puts (formula_text (walk_copies case (sources_of case) i g previous.now most_lines last)) w.old w.new }
{
    let many = put_copies(w, frame, previous, i, g, last);
    let ending = Atom::Variable(frame.shape.block_value(i, g));
    put_same(w, ending, frame.shape.value_before(i, g), frame.sources);
    w.put_closing(many);
}
