// The public library: `accept`, the five calls, the listing, the text for solvers and the call that takes a line by itself. Each answer
// comes in the document's numbers; what each call answers and leaves in the lent slices is defined in `model`'s specs/Accept.antt,
// specs/Answers.antt, specs/Listing.antt and specs/Taking.antt and in `script`'s specs/Text.antt. The one statement about them all is
// `delivered`'s specs/Delivered.antt. What C and Rust link is the static library `menduvo_c`, which has the same calls.
#![tactic(auto)]

ghost use Rattle.std.specs.Prelude.{◌≡◌, length};
ghost use Rattle.model.specs.Accept.{verdict};
ghost use Rattle.model.specs.Answers.{encoded, encoded_into, checked, decoded, decoded_into, replayed, replayed_into, filled, filled_into};
ghost use Rattle.model.specs.Answers.{verdict_numbers, encoded_numbers, checked_numbers, decoded_numbers, replayed_numbers, filled_numbers};
ghost use Rattle.model.specs.Listing.{listed, listed_into, listed_numbers};
ghost use Rattle.model.specs.Taking.{taken, taken_into, taken_numbers};
ghost use Rattle.script.specs.Text.{measured, spelled, spelled_into, spelled_numbers};

use answer_numbers::{listed_numbers, numbers_of, spelled_numbers, taken_numbers};
use builder::FIELDS;
use model::{CopyNumbers, NAMES, Numbers};
use script::TextNumbers;

// Whether the calls take the case: checks 1 to 9.
pub fn menduvo_accept(case: &[u8]) -> Numbers
    ensures { result ≡ verdict_numbers (verdict case.now) }
{
    numbers_of(accept::accept(case))
}

// The table of constraints of the case, six numbers a row, from the start of the slice.
pub fn menduvo_encode(case: &[u8], table: &mut [u16]) -> Numbers
    ensures value { result ≡ encoded_numbers (encoded case.now (length table.old)) }
    ensures table_after { table.new ≡ encoded_into case.now table.old }
{
    numbers_of(encoder::encode(case, table))
}

// Whether the assignment meets the constraints; else the first that fails, from 1.
pub fn menduvo_check(case: &[u8], assignment: &[u16]) -> Numbers
    ensures { result ≡ checked_numbers (checked case.now assignment.now) }
{
    numbers_of(checker::check(case, assignment))
}

// The schedule of an assignment that meets the constraints, from the start of the slice.
pub fn menduvo_decode(case: &[u8], assignment: &[u16], schedule: &mut [u16]) -> Numbers
    ensures value { result ≡ decoded_numbers (decoded case.now assignment.now (length schedule.old)) }
    ensures schedule_after { schedule.new ≡ decoded_into case.now assignment.now schedule.old }
{
    numbers_of(decoder::decode(case, assignment, schedule))
}

// What the run of the schedule comes to; the items' values at its end, from the start of the slice.
pub fn menduvo_replay(case: &[u8], schedule: &[u16], items: &mut [u16]) -> Numbers
    ensures value { result ≡ replayed_numbers (replayed case.now schedule.now (length items.old)) }
    ensures after { items.new ≡ replayed_into case.now schedule.now items.old }
{
    numbers_of(replayer::replay(case, schedule, items))
}

// The assignment of a schedule whose run violates and keeps the rule of switches, from the start of the slice.
#[tactic(auto, using(answer_numbers::proofs::Told::filled_as_decoded))]
pub fn menduvo_fill(case: &[u8], schedule: &[u16], assignment: &mut [u16]) -> Numbers
    ensures value { result ≡ filled_numbers (filled case.now schedule.now (length assignment.old)) }
    ensures assignment_after { assignment.new ≡ filled_into case.now schedule.now assignment.old }
{
    numbers_of(filler::fill(case, schedule, assignment))
}

// The listing of the case as text, from the start of the slice: its constraints, or the number and place of its refusal.
pub fn menduvo_listing(case: &[u8], text: &mut [u8]) -> Numbers
    ensures value { result ≡ listed_numbers (listed case.now (length text.old)) }
    ensures text_after { text.new ≡ listed_into case.now text.old }
{
    listed_numbers(listing_text::listing_text(case, text))
}

// How many bytes the case's constraints have as SMT-LIB text.
pub fn menduvo_smt_length(case: &[u8]) -> TextNumbers
    ensures { result ≡ spelled_numbers (measured case.now) }
{
    spelled_numbers(smt_text::smt_length(case))
}

// The case's constraints as SMT-LIB text, from the start of the slice.
pub fn menduvo_smt_text(case: &[u8], text: &mut [u8]) -> TextNumbers
    ensures value { result ≡ spelled_numbers (spelled case.now (length text.old)) }
    ensures text_after { text.new ≡ spelled_into case.now text.old }
{
    spelled_numbers(smt_text::smt_text(case, text))
}

// The next line of a thread in a case with so many globals and mutexes: the copies of its names, and then it is held for its target.
pub fn menduvo_take_line(
    globals: u16,
    mutexes: u16,
    number: u16,
    fields: &[u16; FIELDS],
    held: &mut [u16; NAMES],
) -> CopyNumbers
    ensures value { result ≡ taken_numbers (taken globals mutexes number fields.now held.old) }
    ensures held_after { held.new ≡ taken_into globals mutexes number fields.now held.old }
{
    taken_numbers(builder::take_line(globals, mutexes, number, fields, held))
}
