// Reads a case on standard input and prints its listing, the text that `listing_text` makes of it. Where reading fails it
// prints `read error`; where the listing cannot be written it says so on standard error.
#![tactic(auto)]

ghost use Rattle.std.specs.Prelude.{◌≤◌, length, IfOk};
ghost use Rattle.model.specs.Limits.{most_listing_bytes};
ghost use Rattle.listing_text.specs.Text.{WholeText};

use listing_text::{MOST_BYTES, listing_text};
use model::{HEADER_BYTES, MOST_RECORDS, RECORD_BYTES};
use std::io;
use std::io::Read;

// One byte more than the largest case has shows that the input is longer.
const MOST_INPUT: usize = HEADER_BYTES + RECORD_BYTES * MOST_RECORDS + 1;

// Reads until the buffer is full, the input ends or a read fails; how many bytes were read. The count of what is read so far has no
// iterator: a read says how many bytes it took.
fn read_case(from: &mut impl Read, buffer: &mut [u8]) -> io::Result<usize>
    ensures { IfOk result (λ bytes. bytes ≤ length buffer.new) }
{
    let mut bytes = 0;
    while bytes < buffer.len() {
        let more = from.read(&mut buffer[bytes..])?;
        if more == 0 {
            return Ok(bytes);
        }
        bytes += more;
    }
    Ok(bytes)
}

// The listing of a case in a text that every listing fits; how many bytes it has. The law `never_refused` of listing_text says
// that the call does not answer with refusal 10 here.
fn listing_of(case: &[u8], text: &mut [u8]) -> usize
    requires { most_listing_bytes ≤ length text.old }
    ensures { WholeText case.now text.old text.new result }
{
    let Ok(bytes) = listing_text(case, text) else {
        return 0;
    };
    bytes
}

// The listing of the case on standard input.
pub fn print_listing(rt: &(impl Input + Print + Eprint)) {
    let mut case = [0u8; MOST_INPUT];
    let Ok(bytes) = read_case(&mut rt.reader(), &mut case) else {
        let _ = rt.write_all(b"read error\n");
        return;
    };
    let mut text = [0u8; MOST_BYTES];
    let count = listing_of(&case[..bytes], &mut text);
    if rt.write_all(&text[..count]).is_err() {
        let _ = rt.eprintln("write error");
    }
}
