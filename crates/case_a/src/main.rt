// Document 01's case A on the code: P1 to P10, a line or two each, request Five's constraint 8 and the assignments of request Six. What
// they must be is in `stdout`.
#![tactic(auto)]

use model::{Checked, Refusal, Replayed};
use std::io;

// Case A with n 2: 16 fields of the header, then its five records.
const CASE_A: [u8; 112] = [
    2, 0, 2, 0, 1, 0, 0, 0, 1, 0, 5, 0, 0, 0, 0, 0, 0, 0, 0, 0, 0, 0, 0, 0, 0, 0, 0, 0, 0, 0, 0, 0,
    2, 0, 3, 0, 0, 0, 0, 0, 0, 0, 0, 0, 0, 0, 0, 0, 3, 0, 2, 0, 0, 0, 0, 0, 1, 0, 0, 0, 16, 0, 1,
    0, 4, 0, 3, 0, 0, 0, 1, 0, 0, 0, 0, 0, 0, 0, 0, 0, 0, 0, 5, 0, 0, 0, 0, 0, 5, 0, 1, 0, 16, 0,
    1, 0, 0, 0, 2, 0, 0, 0, 0, 0, 0, 0, 16, 0, 0, 0, 5, 0,
];

// The same case with n switches.
fn case_with(n: u8) -> [u8; 112] {
    let mut case = CASE_A;
    case[2] = n;
    case
}

fn word(rt: &impl Print, text: &[u8]) -> io::Result<()> {
    rt.write_all(text)
}

fn number(rt: &impl Print, n: u16) -> io::Result<()> {
    rt.print(n)
}

fn two(rt: &impl Print, text: &[u8], first: u16, second: u16) -> io::Result<()> {
    word(rt, text)?;
    number(rt, first)?;
    word(rt, b" ")?;
    number(rt, second)
}

// A refusal: its number and its place.
fn refused(rt: &impl Print, text: &[u8], refusal: Refusal) -> io::Result<()> {
    two(rt, text, refusal.number(), refusal.place())
}

// What a schedule of the case is answered with, and its one item's value at the end.
fn replayed(rt: &impl Print, name: &[u8], case: &[u8], schedule: &[u16]) -> io::Result<()> {
    word(rt, name)?;
    let mut items = [0u16; 1];
    match replayer::replay(case, schedule, &mut items) {
        Ok(Replayed::Violated(k)) => {
            word(rt, b" violated ")?;
            number(rt, k)?;
        }
        Ok(Replayed::Clean) => {
            word(rt, b" clean")?;
        }
        Ok(Replayed::CutOff(k)) => {
            word(rt, b" cut off ")?;
            number(rt, k)?;
        }
        Err(refusal) => {
            refused(rt, b" refused ", refusal)?;
        }
    }
    word(rt, b", item ")?;
    number(rt, items[0])?;
    word(rt, b"\n")
}

// What an assignment of the case is answered with, and what it decodes to.
fn checked(rt: &impl Print, case: &[u8], assignment: &[u16]) -> io::Result<()> {
    match checker::check(case, assignment) {
        Ok(Checked::Meets) => {
            word(rt, b"meets")?;
        }
        Ok(Checked::Fails(k)) => {
            word(rt, b"fails ")?;
            number(rt, k)?;
        }
        Err(refusal) => {
            refused(rt, b"refused ", refusal)?;
        }
    }
    let mut schedule = [0u16; 3];
    match decoder::decode(case, assignment, &mut schedule) {
        Ok(numbers) => {
            two(rt, b", decodes to ", schedule[0], schedule[1])?;
            two(rt, b" ", schedule[2], numbers)?;
        }
        Err(refusal) => {
            refused(rt, b", decoder refuses ", refusal)?;
        }
    }
    word(rt, b"\n")
}

// The case with R 0 and n 0: its table, and what the empty assignment is answered with.
fn empty(rt: &impl Print) -> io::Result<()> {
    let mut case = [0u8; 32];
    case[0] = 2;
    let mut table = [9u16; 6];
    match encoder::encode(&case, &mut table) {
        Ok(size) => {
            two(rt, b"table ", size.constraints, size.variables)?;
        }
        Err(refusal) => {
            refused(rt, b"refused ", refusal)?;
        }
    }
    two(rt, b", row ", table[0], table[5])?;
    let none = [0u16; 1];
    match checker::check(&case, &none[..0]) {
        Ok(Checked::Meets) => word(rt, b", meets\n"),
        Ok(Checked::Fails(k)) => {
            two(rt, b", fails ", k, 0)?;
            word(rt, b"\n")
        }
        Err(refusal) => {
            refused(rt, b", refused ", refusal)?;
            word(rt, b"\n")
        }
    }
}

fn violated_and_clean(rt: &impl Print) -> io::Result<()> {
    let case = case_with(2);
    replayed(rt, b"P1", &case, &[2, 1, 2])?;
    replayed(rt, b"P2", &case, &[0, 1, 4])?;
    replayed(rt, b"P3", &case, &[1, 1, 3])?;
    replayed(rt, b"P4", &case, &[3, 1, 1])?;
    replayed(rt, b"P5", &case, &[4, 1, 0])
}

fn assignments(rt: &impl Print) -> io::Result<()> {
    let case = case_with(2);
    word(rt, b"P6 ")?;
    checked(rt, &case, &[0, 0, 0, 1, 2, 5, 2, 0, 1, 5, 1, 5])?;
    word(rt, b"P7 ")?;
    checked(rt, &case, &[2, 5, 2, 6, 2, 6, 2, 0, 1, 5, 0, 5])
}

// P4's schedule as an assignment: the assert is run in a later block than the load before it.
fn late_assert(rt: &impl Print) -> io::Result<()> {
    let case = case_with(2);
    word(rt, b"Five ")?;
    checked(rt, &case, &[0, 0, 0, 1, 0, 1, 2, 1, 1, 5, 1, 5])
}

// The assignment of a schedule of the case: the five lines' block numbers and values, then the block values.
fn filled(rt: &impl Print, name: &[u8], case: &[u8], schedule: &[u16]) -> io::Result<()> {
    word(rt, name)?;
    let mut assignment = [0u16; 12];
    match filler::fill(case, schedule, &mut assignment) {
        Ok(numbers) => {
            word(rt, b" fills ")?;
            number(rt, numbers)?;
            word(rt, b":")?;
            two(rt, b" ", assignment[0], assignment[1])?;
            two(rt, b" ", assignment[2], assignment[3])?;
            two(rt, b" ", assignment[4], assignment[5])?;
            two(rt, b" ", assignment[6], assignment[7])?;
            two(rt, b" ", assignment[8], assignment[9])?;
            two(rt, b" ", assignment[10], assignment[11])?;
        }
        Err(refusal) => {
            refused(rt, b" refused ", refusal)?;
        }
    }
    word(rt, b"\n")
}

// P1 and P2 are P6 and P7; P4 does not violate.
fn filled_and_refused(rt: &impl Print) -> io::Result<()> {
    let case = case_with(2);
    filled(rt, b"Six P1", &case, &[2, 1, 2])?;
    filled(rt, b"Six P2", &case, &[0, 1, 4])?;
    filled(rt, b"Six P4", &case, &[3, 1, 1])
}

// "every run is clean": every schedule whose lengths fit, and one that has a step too many.
fn no_switch(rt: &impl Print) -> io::Result<()> {
    let case = case_with(0);
    replayed(rt, b"P8", &case, &[0])?;
    replayed(rt, b"P8", &case, &[1])?;
    replayed(rt, b"P8", &case, &[2])?;
    replayed(rt, b"P8", &case, &[3])?;
    replayed(rt, b"P8", &case, &[4])?;
    replayed(rt, b"P8", &case, &[5])
}

fn thread_1_stops(rt: &impl Print, case: &[u8]) -> io::Result<()> {
    replayed(rt, b"P9", case, &[0, 0])?;
    replayed(rt, b"P9", case, &[1, 0])?;
    replayed(rt, b"P9", case, &[2, 0])?;
    replayed(rt, b"P9", case, &[3, 0])?;
    replayed(rt, b"P9", case, &[4, 0])
}

fn thread_1_runs(rt: &impl Print, case: &[u8]) -> io::Result<()> {
    replayed(rt, b"P9", case, &[0, 1])?;
    replayed(rt, b"P9", case, &[1, 1])?;
    replayed(rt, b"P9", case, &[2, 1])?;
    replayed(rt, b"P9", case, &[3, 1])?;
    replayed(rt, b"P9", case, &[4, 1])
}

fn one_switch(rt: &impl Print) -> io::Result<()> {
    let case = case_with(1);
    thread_1_stops(rt, &case)?;
    thread_1_runs(rt, &case)?;
    replayed(rt, b"P9", &case, &[4, 2])
}

fn main(rt: HostRuntime) -> io::Result<()> {
    violated_and_clean(&rt)?;
    assignments(&rt)?;
    late_assert(&rt)?;
    filled_and_refused(&rt)?;
    no_switch(&rt)?;
    one_switch(&rt)?;
    word(&rt, b"P10 ")?;
    empty(&rt)
}
