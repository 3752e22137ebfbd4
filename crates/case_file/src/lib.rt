// Reading a case: its header, its records, and how many variables it has.
#![tactic(auto)]

ghost use Rattle.std.specs.Prelude.{◌≡◌, ◌+◌, ◌-◌, ◌*◌, ◌<◌, ◌≤◌, leb, length};
ghost use Rattle.model.specs.Limits.{most_threads, most_switches, most_globals, most_items, most_variables, header_bytes};
ghost use Rattle.model.specs.CaseFile.{field, records, thread_count, switch_count, global_count, mutex_count, first_record, initial_value, next_record, record_field, kind_of, case_of, item_count};
ghost use Rattle.model.specs.Lists.{all_from};
ghost use Rattle.model.specs.Assignment.{variables};
ghost use Rattle.laws.specs.Accepted.{Accepted};
ghost use Rattle.laws.specs.Bounded.{Bounded};
ghost use Rattle.case_file.specs.FirstItems.{first_items};
ghost use Rattle.case_file.specs.Present.{InHeader, HasGlobals, HasFields, HasRecord, HasField};
ghost use Rattle.case_file.specs.Records.{record_of, link_of};

use model::Kind;

// Which field of the header is thread 0's first record, and which is global 0's initial value.
pub const FIRSTS: usize = 4;

pub const INITIALS: usize = 8;

// An accepted case: what checks 1 to 9 give of its bytes.
#[derive(Clone, Copy)]
pub struct Case<'a> {
    pub bytes: &'a [u8],
    pub ghost accepted: { Accepted bytes.now },
}

// A record as a line of a thread: the thread, and the record's fields but for its next number; of its kind the number, and what kind that
// is.
#[derive(Clone, Copy)]
pub struct Record {
    pub thread: u16,
    pub kind_number: u16,
    pub kind: Kind,
    pub guard: u16,
    pub target: u16,
    pub op: u16,
    pub a: u16,
    pub b: u16,
    pub c: u16,
}

// A line where it stands in its chain: its record, its kind, and the records before and after it; 0 where there is none, as the case file
// has it (`CaseFile.next_record`).
#[derive(Clone, Copy)]
pub struct Link {
    pub before: u16,
    pub line: u16,
    pub kind: Kind,
    pub next: u16,
}

// Field j of the case, from 0.
pub fn field_at(case: &[u8], j: usize) -> u16
    requires { 2 * j + 1 < length case.now }
    ensures { result ≡ field case.now j }
{
    let at = 2 * j;
    u16::from_le_bytes([case[at], case[at + 1]])
}

// How many threads there are, switches, globals and mutexes.
pub fn threads(case: &[u8]) -> u16
    requires { header_bytes ≤ length case.now }
    ensures { result ≡ thread_count case.now }
{
    field_at(case, 0)
}

pub fn switches(case: &[u8]) -> u16
    requires { header_bytes ≤ length case.now }
    ensures { result ≡ switch_count case.now }
{
    field_at(case, 1)
}

pub fn globals(case: &[u8]) -> u16
    requires { header_bytes ≤ length case.now }
    ensures { result ≡ global_count case.now }
{
    field_at(case, 2)
}

pub fn mutexes(case: &[u8]) -> u16
    requires { header_bytes ≤ length case.now }
    ensures { result ≡ mutex_count case.now }
{
    field_at(case, 3)
}

// The first record of thread t; 0 if it has no lines, as the case file has it (`CaseFile.first_record`).
pub fn first_of(case: &[u8], t: usize) -> usize
    requires { InHeader case.now t most_threads }
    ensures { result ≡ first_record case.now t }
{
    field_at(case, FIRSTS + t) as usize
}

// The initial value of global g.
pub fn initial_of(case: &[u8], g: usize) -> u16
    requires { InHeader case.now g most_globals }
    ensures { result ≡ initial_value case.now g }
{
    field_at(case, INITIALS + g)
}

// The items where a run starts: the globals at their initial values, and the rest at 0.
pub fn first_items(case: &[u8]) -> [u16; model::ITEMS]
    requires { HasGlobals case.now }
    ensures { result ≡ first_items case.now (global_count case.now) }
{
    let globals = globals(case) as usize;
    let mut items = [0u16; model::ITEMS];
    for g in 0..globals {
        items[g] = initial_of(case, g);
    }
    items
}

// How many records there are.
pub fn records(case: &[u8]) -> usize
    requires { header_bytes ≤ length case.now }
    ensures { result ≡ records case.now }
{
    (case.len() - model::HEADER_BYTES) / model::RECORD_BYTES
}

impl Case<'_> {
    // How many items there are, how many block values, and how many variables in all.
    pub fn items(&self) -> usize
        ensures { Bounded (item_count (case_of self.now.bytes.now)) most_items result }
    {
        globals(self.bytes) as usize + mutexes(self.bytes) as usize
    }

    pub fn block_values(&self) -> usize
        ensures { Bounded (switch_count self.now.bytes.now * item_count (case_of self.now.bytes.now)) (most_switches * most_items) result }
    {
        switches(self.bytes) as usize * self.items()
    }

    pub fn variables(&self) -> usize
        ensures { Bounded (variables (case_of self.now.bytes.now)) most_variables result }
    {
        2 * records(self.bytes) + self.block_values()
    }
}

// Field j of record k, from 1.
fn field_of(case: &[u8], k: usize, j: usize) -> u16
    requires { HasField case.now k j }
    ensures { result ≡ record_field case.now k j }
{
    field_at(case, 8 + 8 * k + j)
}

// Record k as a line of thread t.
pub fn record_at(case: &[u8], t: u16, k: usize) -> Record
    requires { HasRecord case.now k }
    ensures { result ≡ record_of case.now t k }
{
    Record {
        thread: t,
        kind_number: kind_number(case, k),
        kind: kind_of(case, k),
        guard: field_of(case, k, 2),
        target: field_of(case, k, 3),
        op: field_of(case, k, 4),
        a: field_of(case, k, 5),
        b: field_of(case, k, 6),
        c: field_of(case, k, 7),
    }
}

// The number of record k's kind, and the kind.
pub fn kind_number(case: &[u8], k: usize) -> u16
    requires { HasRecord case.now k }
    ensures { result ≡ record_field case.now k 1 }
{
    field_of(case, k, 1)
}

pub fn kind_of(case: &[u8], k: usize) -> Kind
    requires { HasRecord case.now k }
    ensures { result ≡ kind_of (record_field case.now k 1) }
{
    Kind::from(kind_number(case, k))
}

// The record after record k in its chain; 0 at the end, as the case file has it (`CaseFile.next_record`). Walks along a chain are
// `while k != 0`: no index is counted, and the chain's end is this 0.
pub fn next_of(case: &[u8], k: usize) -> usize
    requires { HasRecord case.now k }
    ensures { result ≡ next_record case.now k }
{
    field_at(case, 8 + 8 * k) as usize
}

// Record k where it stands in its chain, after the record `before`.
pub fn link_at(case: &[u8], before: u16, k: u16) -> Link
    requires { HasRecord case.now k }
    ensures { result ≡ link_of case.now before k }
{
    let at = k as usize;
    Link {
        before,
        line: k,
        kind: kind_of(case, at),
        next: field_of(case, at, 0),
    }
}

// Whether the header's fields from `base + from` to before `base + to` are at most a number.
pub fn all_at_most(case: &[u8], base: usize, from: usize, to: usize, most: usize) -> bool
    requires { HasFields case.now (base + to) }
    ensures { result ≡ all_from (λ j. leb (field case.now (base + j)) most) from (to - from) }
{
    (from..to).all(|j| field_at(case, base + j) as usize <= most)
}
