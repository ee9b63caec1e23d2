// The clubs' packed finishing sheet: seven calls on a store of three lent slices.
#![tactic(auto)]

ghost use Rattle.std.specs.Prelude.{◌≡◌, [], length};
ghost use Rattle.call_outcomes.specs.Kind.{clear};
ghost use Rattle.call_outcomes.specs.Outcome.{outcome};
ghost use Rattle.call_outcomes.specs.PlainCalls as call;
ghost use Rattle.call_outcomes.specs.Plain.{plain, plain_store_of, plain_outcome_of};
ghost use Rattle.call_outcomes.specs.Clubs.{clubs};

use call_outcomes::{Answer, Cause};
use tree_rules::Change;

// Makes any contents the empty sheet.
pub fn clear(slots: &mut [u64], counts: &mut [u16], tallies: &mut [u16]) -> Result<Answer, Cause>
    ensures { plain_outcome_of result slots.new counts.new tallies.new []
        ≡ outcome (plain clubs) clear [] (plain_store_of slots.old counts.old tallies.old) [] }
{
    let cap = sheet_clubs::capacity();
    if !sheet_open::right_lengths(cap, slots.len(), counts.len(), tallies.len()) {
        return Err(Cause::Lengths);
    }
    let zeros = [0u32; 256];
    store_slices::zero_slots(slots, 0, 4224);
    store_widths::narrow(&zeros, counts);
    store_widths::narrow(&zeros, tallies);
    Ok(Answer::Cleared)
}

// Makes the change of the list, with the entry of an insert.
pub fn make_change(
    slots: &mut [u64],
    counts: &mut [u16],
    tallies: &mut [u16],
    change: Change,
    entry: u64,
    tape: &[u32],
) -> Result<Answer, Cause>
    ensures { plain_outcome_of result slots.new counts.new tallies.new []
        ≡ outcome (plain clubs) (call.changing change entry) tape.now (plain_store_of slots.old counts.old tallies.old) [] }
{
    let mut counts32 = [0u32; 256];
    let mut work = [0u32; 256];
    let opened = sheet_clubs::open(slots, counts, tallies, &mut counts32, &mut work);
    let sheet = call_open::admit_change(opened, 1024, change, entry)?;
    let made = sheet_clubs_change::make(
        slots,
        counts,
        tallies,
        &mut counts32,
        &mut work,
        sheet,
        change,
        entry,
        tape,
    )
    .ok_or(Cause::TapeEnded)?;
    Ok(Answer::Changed {
        n: made.n,
        words: made.words,
    })
}

// Puts the entry in at the rank.
pub fn insert(
    slots: &mut [u64],
    counts: &mut [u16],
    tallies: &mut [u16],
    rank: usize,
    entry: u64,
    tape: &[u32],
) -> Result<Answer, Cause>
    ensures { plain_outcome_of result slots.new counts.new tallies.new []
        ≡ outcome (plain clubs) (call.insert rank entry) tape.now (plain_store_of slots.old counts.old tallies.old) [] }
{
    make_change(slots, counts, tallies, Change::Insert(rank), entry, tape)
}

// Takes the entry at the rank out.
pub fn delete(
    slots: &mut [u64],
    counts: &mut [u16],
    tallies: &mut [u16],
    rank: usize,
    tape: &[u32],
) -> Result<Answer, Cause>
    ensures { plain_outcome_of result slots.new counts.new tallies.new []
        ≡ outcome (plain clubs) (call.delete rank) tape.now (plain_store_of slots.old counts.old tallies.old) [] }
{
    make_change(slots, counts, tallies, Change::Delete(rank), 0, tape)
}

// Copies the entries of ranks first to last to the front of the output.
pub fn read(
    slots: &[u64],
    counts: &[u16],
    tallies: &[u16],
    first: usize,
    last: usize,
    output: &mut [u64],
) -> Result<Answer, Cause>
    ensures { plain_outcome_of result slots.now counts.now tallies.now output.new
        ≡ outcome (plain clubs) (call.read first last (length output.old)) [] (plain_store_of slots.now counts.now tallies.now) output.old }
{
    let mut work = [0u32; 256];
    let opened = sheet_clubs::examine(slots, counts, tallies, &mut work);
    call_questions::read(opened, slots, &work, first, last, output)
}

// The place of the entry at the rank: that of her tied group, the sum of its places and the number of its boats; a retired boat has none.
pub fn place(slots: &[u64], counts: &[u16], tallies: &[u16], rank: usize) -> Result<Answer, Cause>
    ensures { plain_outcome_of result slots.now counts.now tallies.now []
        ≡ outcome (plain clubs) (call.place rank) [] (plain_store_of slots.now counts.now tallies.now) [] }
{
    let mut work = [0u32; 256];
    let mut numbers = [0u32; 256];
    let opened = sheet_clubs::examine_numbers(slots, counts, tallies, &mut work, &mut numbers);
    call_questions::place(opened, slots, &work, &numbers, rank)
}

// The number of entries of a sheet.
pub fn check(slots: &[u64], counts: &[u16], tallies: &[u16]) -> Result<Answer, Cause>
    ensures { plain_outcome_of result slots.now counts.now tallies.now []
        ≡ outcome (plain clubs) call.check [] (plain_store_of slots.now counts.now tallies.now) [] }
{
    let mut work = [0u32; 256];
    let opened = sheet_clubs::examine(slots, counts, tallies, &mut work);
    call_questions::check(opened)
}

// Copies the entries at the ranks, at most 64 that do not fall, to the front of the output.
pub fn board(
    slots: &[u64],
    counts: &[u16],
    tallies: &[u16],
    ranks: &[u64],
    output: &mut [u64],
) -> Result<Answer, Cause>
    ensures { plain_outcome_of result slots.now counts.now tallies.now output.new
        ≡ outcome (plain clubs) (call.board ranks.now (length output.old)) [] (plain_store_of slots.now counts.now tallies.now) output.old }
{
    let mut work = [0u32; 256];
    let opened = sheet_clubs::examine(slots, counts, tallies, &mut work);
    call_questions::board(opened, slots, &work, ranks, output)
}
