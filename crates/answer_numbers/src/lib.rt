// The answers of the calls in the document's numbers, as C and Rust get them.
#![tactic(auto)]

ghost use Rattle.std.specs.Prelude.{◌≡◌, ◌≤◌, Result, Ok, Err, refl};
ghost use Rattle.model.specs.Limits.{most_listing_bytes};
ghost use Rattle.model.specs.declared.Refusal.{Refusal};
ghost use Rattle.model.specs.declared.Numbers.{Numbers};
ghost use Rattle.model.specs.Refusals.{refusal_number, refusal_place};
ghost use Rattle.model.specs.Answers.{refused_numbers, answer_numbers, verdict_numbers, encoded_numbers, checked_numbers, decoded_numbers, replayed_numbers};
ghost use Rattle.model.specs.Listing.{listed_numbers};
ghost use Rattle.model.specs.Taking.{taken_numbers};
ghost use Rattle.script.specs.Text.{spelled_numbers};

use model::{Checked, Copies, CopyNumbers, Numbers, Refusal, Replayed, TableSize};
use script::TextNumbers;

// What a call answers that does not refuse.
pub trait Answer: Sized {
    // The document's numbers for each case of the call's answer.
    ghost told: { Result Self Refusal → Numbers };

    // The numbers of an answer.
    fn numbers(self) -> Numbers
        ensures { result ≡ told (Ok self) };

    // Every call tells a refusal alike.
    ghost refusals: { (e : Refusal) → told (Err e) ≡ refused_numbers (refusal_number e) (refusal_place e) };
}

// The call that only takes a case, or refuses it.
impl Answer for () {
    ghost told = { verdict_numbers };

    ghost refusals = { λ e. refl };

    fn numbers(self) -> Numbers {
        answered(1, 0, 0)
    }
}

impl Answer for TableSize {
    ghost told = { encoded_numbers };

    ghost refusals = { λ e. refl };

    fn numbers(self) -> Numbers {
        answered(1, self.constraints, self.variables)
    }
}

impl Answer for Checked {
    ghost told = { checked_numbers };

    ghost refusals = { λ e. refl };

    fn numbers(self) -> Numbers {
        match self {
            Checked::Meets => answered(1, 0, 0),
            Checked::Fails(constraint) => answered(2, constraint, 0),
        }
    }
}

impl Answer for Replayed {
    ghost told = { replayed_numbers };

    ghost refusals = { λ e. refl };

    fn numbers(self) -> Numbers {
        match self {
            Replayed::Violated(k) => answered(1, k, 0),
            Replayed::Clean => answered(2, 0, 0),
            Replayed::CutOff(k) => answered(3, k, 0),
        }
    }
}

// The calls that say how many numbers they wrote: the decoder, and the filler, whose `filled_numbers` are the same.
impl Answer for u16 {
    ghost told = { decoded_numbers };

    ghost refusals = { λ e. refl };

    fn numbers(self) -> Numbers {
        answered(1, self, 0)
    }
}

// A call's answer in numbers.
pub fn numbers_of<T: Answer>(answer: Result<T, Refusal>) -> Numbers
    ensures { result ≡ T.told answer }
{
    match answer {
        Ok(answer) => answer.numbers(),
        Err(refusal) => refused(refusal),
    }
}

fn refused(why: Refusal) -> Numbers
    ensures { result ≡ refused_numbers (refusal_number why) (refusal_place why) }
{
    Numbers {
        refusal: why.number(),
        place: why.place(),
        answer: 0,
        first: 0,
        second: 0,
    }
}

fn answered(answer: u16, first: u16, second: u16) -> Numbers
    ensures { result ≡ answer_numbers answer first second }
{
    Numbers {
        refusal: 0,
        place: 0,
        answer,
        first,
        second,
    }
}

// A listing's length is a number of 16 bits: what the code holds as `usize` has to be known to fit, so this is no `Answer`.
pub fn listed_numbers(listed: Result<usize, Refusal>) -> Numbers
    requires { (listed_numbers listed).first ≤ most_listing_bytes }
    ensures { result ≡ listed_numbers listed }
{
    match listed {
        Ok(bytes) => answered(1, bytes as u16, 0),
        Err(refusal) => refused(refusal),
    }
}

// A text may be longer than a number of 16 bits says, so its length has a place of its own.
pub fn spelled_numbers(spelled: Result<usize, Refusal>) -> TextNumbers
    ensures { result ≡ spelled_numbers spelled }
{
    match spelled {
        Ok(bytes) => TextNumbers {
            refusal: 0,
            place: 0,
            bytes,
        },
        Err(refusal) => TextNumbers {
            refusal: refusal.number(),
            place: refusal.place(),
            bytes: 0,
        },
    }
}

// The copies of a line are four numbers, so they have places of their own.
pub fn taken_numbers(taken: Result<Copies, Refusal>) -> CopyNumbers
    ensures { result ≡ taken_numbers taken }
{
    match taken {
        Ok(copies) => CopyNumbers {
            refusal: 0,
            place: 0,
            guard: copies.guard,
            a: copies.a,
            b: copies.b,
            target: copies.target,
        },
        Err(refusal) => CopyNumbers {
            refusal: refusal.number(),
            place: refusal.place(),
            guard: 0,
            a: 0,
            b: 0,
            target: 0,
        },
    }
}
