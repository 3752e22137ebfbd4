// The forward walk that finds copies. It takes the lines of a thread front to back, each once, and holds for each name the latest line
// up to there that has it as target.
#![tactic(auto)]

ghost use Rattle.std.specs.Prelude.{◌≡◌, ◌≤◌};
ghost use Rattle.model.specs.Limits.{most_globals};
ghost use Rattle.model.specs.Copies.{held_copy, take_copy, take_line};
ghost use Rattle.model.specs.Taking.{copies_at};
ghost use Rattle.case_file.specs.Records.{as_line};

use case_file::Record;
use line::{guard_name, operand_a, operand_b, target_name};
use model::{Copies, NAMES};

// The copy of a name; 0 if there is none.
#[tactic(auto, unfolding(model::specs::Copies::held_copy))]
pub fn copy_of(held: &[u16; NAMES], name: usize) -> u16
    ensures { result ≡ held_copy held.now name }
{
    held.get(name).copied().unwrap_or(0)
}

// Line k is taken, whose target has this name: it is now the latest copy. The copy before it.
#[tactic(auto, unfolding(model::specs::Copies::take_copy))]
pub fn take_copy(held: &mut [u16; NAMES], name: usize, k: u16) -> u16
    ensures value { result ≡ held_copy held.old name }
    ensures held_after { held.new ≡ take_copy held.old name k }
{
    let before = copy_of(held, name);
    if name < NAMES {
        held[name] = k;
    }
    before
}

// Line k is taken, in a case with so many globals. The copies of its names before it.
pub fn take_line(held: &mut [u16; NAMES], globals: usize, l: Record, k: u16) -> Copies
    requires { globals ≤ most_globals }
    ensures value { result ≡ copies_at globals held.old (as_line l k) }
    ensures held_after { held.new ≡ take_line globals held.old (as_line l k) }
{
    let target = target_name(globals, l);
    let a = operand_a(l);
    let b = operand_b(l);
    let guard = guard_name(l);
    Copies {
        guard: copy_of(held, guard),
        a: copy_of(held, a),
        b: copy_of(held, b),
        target: take_copy(held, target, k),
    }
}
