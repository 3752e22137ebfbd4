// The listing of a case, as text in a lent slice. Where it might not fit, one writer serves twice: into no bytes at all, which
// measures the text, and then into the slice, so that a slice that is too short stays as it is.
#![tactic(auto)]

ghost use Rattle.std.specs.Prelude.{◌≡◌, ◌+◌, ◌*◌, ◌<◌, ◌≤◌, [], ◌∷◌, leb, length};
ghost use Rattle.model.specs.Limits.{most_listing_bytes};
ghost use Rattle.model.specs.Listing.{digit, decimal, numbers_line, listed, listed_into};
ghost use Rattle.laws.specs.Written.{numbers_at, Put};
ghost use Rattle.listing_text.specs.Text.{ended, six_at, six_lines, text_of, TableAnswered, TextRoom};

use encoder::MOST_NUMBERS;
use model::{Refusal, TableSize};
use rows::ROW;

// No text is longer: six bytes for each number of the largest table and for the two counts.
pub const MOST_BYTES: usize = 6 * (2 + MOST_NUMBERS);

// The listing's text, from the slice's start: a case's table, or the number and place of its refusal. Refusal 10 where the
// slice is shorter. The table always fits its array (`table_numbers_lem` of laws), so the encoder refuses only what the case is
// refused for.
pub fn listing_text(case: &[u8], text: &mut [u8]) -> Result<usize, Refusal>
    ensures value { result ≡ listed case.now (length text.old) }
    ensures text_after { text.new ≡ listed_into case.now text.old }
{
    let mut table = [0u16; MOST_NUMBERS];
    let answer = encoder::encode(case, &mut table);
    if fits(text.len(), answer, &table) {
        return Ok(write_text(text, answer, &table));
    }
    Err(Refusal::Short)
}

// Whether the text of what the encoder answered has at most so many bytes. It is not measured where every text has.
fn fits(room: usize, answer: Result<TableSize, Refusal>, table: &[u16]) -> bool
    requires { TableAnswered answer table.now }
    ensures { result ≡ leb (length (text_of answer table.now)) room }
{
    if MOST_BYTES <= room {
        return true;
    }
    let mut nothing = [0u8; 0];
    write_text(&mut nothing, answer, table) <= room
}

// The text of what the encoder answered, from the start as far as the slice goes; how many bytes the text has.
fn write_text(text: &mut [u8], answer: Result<TableSize, Refusal>, table: &[u16]) -> usize
    requires { TableAnswered answer table.now }
    ensures { Put (text_of answer table.now) text.old 0 text.new result }
{
    match answer {
        Ok(size) => {
            let at = put_two(text, size.constraints, size.variables);
            put_rows(text, at, table, size.constraints as usize)
        }
        Err(refusal) => put_two(text, refusal.number(), refusal.place()),
    }
}

// So many constraints of the table, a line each, from a place on; the place after them.
fn put_rows(text: &mut [u8], start: usize, table: &[u16], count: usize) -> usize
    requires { TextRoom (6 * count) table.now (start + 36 * count) }
    ensures { Put (six_lines table.now 0 count) text.old start text.new result }
{
    let mut at = start;
    for i in 0..count {
        at = put_row(text, at, table, ROW * i);
    }
    at
}

// The constraint whose numbers stand in the table from `from` on, on a line of its own; the place after it.
#[tactic(auto, using(crate::proofs::Rows::six_taken))]
fn put_row(text: &mut [u8], at: usize, table: &[u16], from: usize) -> usize
    requires { TextRoom (from + 6) table.now (at + 36) }
    ensures { Put (numbers_line (six_at table.now from)) text.old at text.new result }
{
    put_line(text, at, &table[from..from + ROW])
}

// A first line: two numbers.
fn put_two(text: &mut [u8], first: u16, second: u16) -> usize
    ensures { Put (numbers_line (first ∷ (second ∷ []))) text.old 0 text.new result }
{
    let two = [first, second];
    put_line(text, 0, &two)
}

// Some numbers on a line, from a place on; the place after them.
fn put_line(text: &mut [u8], start: usize, numbers: &[u16]) -> usize
    requires { TextRoom 1 numbers.now (start + 6 * length numbers.now) }
    ensures { Put (numbers_line numbers.now) text.old start text.new result }
{
    let last = numbers.len() - 1;
    let mut at = start;
    for j in 0..last {
        at = put_number(text, at, numbers[j], b' ');
    }
    put_number(text, at, numbers[last], b'\n')
}

// A number and the byte that ends it. Most numbers of a table have one digit.
fn put_number(text: &mut [u8], at: usize, n: u16, end: u8) -> usize
    requires { at + 6 ≤ most_listing_bytes }
    ensures { Put (ended n end) text.old at text.new result }
{
    if n < 10 {
        put_byte(text, at, digit_of(n));
        let next = at + 1;
        put_byte(text, next, end);
        return next + 1;
    }
    let place = put_digits(text, at, n);
    put_byte(text, place, end);
    place + 1
}

// A number's digits: those of its tenth, and the last one. The tenth of a number below 100 is a digit.
fn put_digits(text: &mut [u8], at: usize, n: u16) -> usize
    requires { at + 6 ≤ most_listing_bytes }
    ensures { Put (decimal n) text.old at text.new result }
{
    if n < 10 {
        put_byte(text, at, digit_of(n));
        return at + 1;
    }
    let high = n / 10;
    let low = n % 10;
    if n < 100 {
        put_byte(text, at, digit_of(high));
        let next = at + 1;
        put_byte(text, next, digit_of(low));
        return next + 1;
    }
    let place = put_digits(text, at, high);
    put_byte(text, place, digit_of(low));
    place + 1
}

// The code of a digit in base ten. `digit_of` of spell, which has base sixteen, stands above this crate and is no part of it.
fn digit_of(x: u16) -> u8
    requires { x < 10 }
    ensures { result ≡ digit x }
{
    48 + x as u8
}

// A byte at a place; nothing where the slice has no such place. A test and no `get_mut`, whose promise does not say how the slice ends.
fn put_byte(text: &mut [u8], at: usize, byte: u8)
    ensures { text.new ≡ numbers_at text.old at (byte ∷ []) }
{
    if text.len() <= at {
        return;
    }
    text[at] = byte;
}
