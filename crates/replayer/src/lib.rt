// The replayer: what a schedule of a case comes to.
#![tactic(auto)]

ghost use Rattle.std.specs.Prelude.{Ok, ◌≡◌, length, take};
ghost use Rattle.model.specs.Lists.{written_over};
ghost use Rattle.model.specs.Accept.{verdict};
ghost use Rattle.model.specs.Answers.{replayed, replayed_into};
ghost use Rattle.replayer.specs.Promises.{Ran, Answered};
ghost use Rattle.replayer.specs.Ready.{ItemsFit, BlocksReady};

use case_file::Case;
use model::{ITEMS, RECORD_PLACES, Refusal, Replayed};
use numbers::write_over;
use schedule_check::refusal_of;

// The first so many values go to the start of the slice.
fn write_items(values: [u16; ITEMS], count: usize, items: &mut [u16])
    requires { ItemsFit count items.old }
    ensures { items.new ≡ written_over (take count values) items.old }
{
    write_over(&values[..count], items);
}

// The run of an accepted case in blocks with these lengths, its trace not kept; the items' values at its end go to the start of the slice.
fn replay_blocks(
    case: &Case<'_>,
    lengths: &[u16],
    given: &[u16],
    items: &mut [u16],
) -> Result<Replayed, Refusal>
    requires { BlocksReady case.now.bytes.now given.now items.old }
    ensures { Ran case.now.bytes.now lengths.now given.now items.old result items.new }
{
    let count = case.items();
    let mut untraced = [0u16; 0];
    let ended = run::run_case(case, lengths, given, &mut untraced);
    let reply = ended.reply?;
    write_items(ended.items, count, items);
    Ok(reply)
}

fn replay_accepted(
    case: &Case<'_>,
    schedule: &[u16],
    items: &mut [u16],
) -> Result<Replayed, Refusal>
    requires { verdict case.now.bytes.now ≡ Ok tt }
    ensures { Answered case.now.bytes.now schedule.now items.old items.new result }
{
    let blocks = case_file::switches(case.bytes) as usize + 1;
    let written = case.items();
    if items.len() < written {
        return Err(Refusal::Short);
    }
    let mut given = [0u16; RECORD_PLACES];
    refusal_of(case, schedule, &mut given)?;
    let lengths = &schedule[..blocks];
    replay_blocks(case, lengths, &given, items)
}

// The reply to a schedule of a case; the items' values at the end of the run, or at the cut-off, go to the start of the slice.
#[tactic(auto, using(laws::proofs::Accepted::accepted_of), unfolding(model::specs::Answers::on_case, model::specs::Answers::replayed, model::specs::Answers::replayed_into))]
pub fn replay(case: &[u8], schedule: &[u16], items: &mut [u16]) -> Result<Replayed, Refusal>
    ensures value { result ≡ replayed case.now schedule.now (length items.old) }
    ensures after { items.new ≡ replayed_into case.now schedule.now items.old }
{
    accept::accept(case)?;
    replay_accepted(&Case { bytes: case }, schedule, items)
}
