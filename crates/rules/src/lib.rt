// Check 9: the rules of a record's fields.
#![tactic(auto)]

ghost use Rattle.std.specs.Prelude.{◌≡◌, not, ◌||◌, ℕ, eqb};
ghost use Rattle.model.specs.Lists.{unless_0};
ghost use Rattle.model.specs.Accept.{expression_ok, only_operand_a, no_expression, kind_rule, fields_ok, rule_ok, broken_record};
ghost use Rattle.case_file.specs.Records.{as_line};
ghost use Rattle.laws.specs.Sized.{Sized};
ghost use Rattle.rules.specs.RuleReady.{RuleReady};

use case_file::{Record, globals, mutexes, record_at, records};
use model::Kind;

// A local is below this, and this as an operand is the constant.
const LOCALS: u16 = model::LOCALS as u16;

// Whether operand b is 0 where the op does not use it.
fn unused_b_ok(op: u16, b: u16) -> bool
    ensures { result ≡ (not (eqb op 0) || eqb b 0) }
{
    (op != 0) | (b == 0)
}

// Each bound is a branch, since every line of an accepted case keeps it; what goes by the line's op and constant is computed without one.
fn expression_ok(l: Record) -> bool
    ensures { result ≡ expression_ok (as_line l 0) }
{
    let constant_ok = (l.a == LOCALS) | ((l.b == LOCALS) | (l.c == 0));
    l.op <= model::HIGHEST_OP
        && l.a <= LOCALS
        && l.b <= LOCALS
        && unused_b_ok(l.op, l.b) & constant_ok
}

fn only_operand_a(l: Record) -> bool
    ensures { result ≡ only_operand_a (as_line l 0) }
{
    l.op == 0 && l.b == 0 && l.c == 0
}

fn no_expression(l: Record) -> bool
    ensures { result ≡ no_expression (as_line l 0) }
{
    l.a == 0 && only_operand_a(l)
}

// Whether a record keeps its kind's rule.
#[inline(always)]
#[tactic(auto, unfolding(model::specs::Accept::kind_rule))]
fn kind_rule_ok(l: Record, globals: u16, mutexes: u16) -> bool
    ensures { (k : ℕ) → result ≡ kind_rule l.kind globals mutexes (as_line l k) }
{
    match l.kind {
        Kind::Compute => l.target < LOCALS && expression_ok(l),
        Kind::Store => l.target < globals && expression_ok(l),
        Kind::Load => l.target < LOCALS && l.a < globals && only_operand_a(l),
        Kind::Input => l.target < LOCALS && no_expression(l),
        Kind::Assert | Kind::Assume => l.target == 0 && expression_ok(l),
        Kind::Lock | Kind::Unlock => l.target < mutexes && no_expression(l),
    }
}

// Whether a record keeps the rules of its fields, in a case with so many globals and mutexes. Its number makes no difference.
// In line, and so is what it asks of a kind: it has two callers, and as calls they would take accept half as many instructions again.
#[inline(always)]
pub fn fields_ok(l: Record, globals: u16, mutexes: u16) -> bool
    ensures { (k : ℕ) → result ≡ fields_ok l.kind_number globals mutexes (as_line l k) }
{
    (1..=model::HIGHEST_KIND).contains(&l.kind_number)
        && l.guard <= model::HIGHEST_GUARD
        && kind_rule_ok(l, globals, mutexes)
}

// The same of record k of a case.
fn rule_ok(case: &[u8], k: usize, globals: u16, mutexes: u16) -> bool
    requires { RuleReady case.now k globals mutexes }
    ensures { result ≡ rule_ok case.now k }
{
    let l = record_at(case, 0, k);
    fields_ok(l, globals, mutexes)
}

// 9: the lowest record that breaks the rules, if one does.
pub fn broken_record(case: &[u8]) -> Option<u16>
    requires { Sized case.now }
    ensures { result ≡ unless_0 (broken_record case.now) }
{
    let most = records(case);
    let globals = globals(case);
    let mutexes = mutexes(case);
    for k in 1..most + 1 {
        if !rule_ok(case, k, globals, mutexes) {
            return Some(k as u16);
        }
    }
    None
}
