// The clubs' timed sheet: eight calls on a store of four lent slices.
#![tactic(auto)]

ghost use Rattle.std.specs.Prelude.{◌≡◌, [], length};
ghost use Rattle.call_outcomes.specs.Kind.{clear};
ghost use Rattle.call_outcomes.specs.Outcome.{outcome};
ghost use Rattle.call_outcomes.specs.Clubs.{clubs};
ghost use Rattle.call_timed.specs.Timed as call;
ghost use Rattle.call_timed.specs.Timed.{timed, timed_store_of, timed_outcome_of};

use call_outcomes::{Answer, Cause};
use tree_rules::Change;
use tree_sizes::Size;

// Makes any contents the empty sheet.
pub fn clear(
    slots: &mut [u64],
    counts: &mut [u16],
    tallies: &mut [u16],
    balance: &mut [u64],
) -> Result<Answer, Cause>
    ensures { timed_outcome_of result slots.new counts.new tallies.new balance.new []
        ≡ outcome (timed clubs) clear [] (timed_store_of slots.old counts.old tallies.old balance.old) [] }
{
    let cap = sheet_clubs::capacity();
    if !timed_open::right_lengths(cap, slots.len(), counts.len(), tallies.len(), balance.len()) {
        return Err(Cause::Lengths);
    }
    let zeros = [0u32; 256];
    store_slices::zero_slots(slots, 0, 4224);
    store_widths::narrow(&zeros, counts);
    store_widths::narrow(&zeros, tallies);
    store_slices::zero_slots(balance, 0, 256);
    Ok(Answer::Cleared)
}

// Puts the entry in at the rank of its key.
pub fn insert(
    slots: &mut [u64],
    counts: &mut [u16],
    tallies: &mut [u16],
    balance: &mut [u64],
    entry: u64,
    tape: &[u32],
) -> Result<Answer, Cause>
    ensures { timed_outcome_of result slots.new counts.new tallies.new balance.new []
        ≡ outcome (timed clubs) (call.insert entry) tape.now (timed_store_of slots.old counts.old tallies.old balance.old) [] }
{
    let mut counts32 = [0u32; 256];
    let mut work = [0u32; 256];
    let sheet = timed_clubs::open(slots, counts, tallies, balance, &mut counts32, &mut work)?;
    if store_keys::key(entry) == 0 {
        return Err(Cause::EntryZero);
    }
    match store_search::search(Size { m: sheet.m }, slots, &work, balance, entry) {
        Ok(_) => Err(Cause::EntryPresent),
        Err(rank) => {
            if 1024 <= sheet.n {
                return Err(Cause::Full);
            }
            let change = Change::Insert(rank);
            timed_clubs::change(
                slots,
                counts,
                tallies,
                balance,
                &mut counts32,
                &mut work,
                sheet,
                change,
                entry,
                tape,
            )
        }
    }
}

// Takes the entry at the rank out.
pub fn delete(
    slots: &mut [u64],
    counts: &mut [u16],
    tallies: &mut [u16],
    balance: &mut [u64],
    rank: usize,
    tape: &[u32],
) -> Result<Answer, Cause>
    ensures { timed_outcome_of result slots.new counts.new tallies.new balance.new []
        ≡ outcome (timed clubs) (call.delete rank) tape.now (timed_store_of slots.old counts.old tallies.old balance.old) [] }
{
    let mut counts32 = [0u32; 256];
    let mut work = [0u32; 256];
    let opened = timed_clubs::open(slots, counts, tallies, balance, &mut counts32, &mut work);
    let sheet = call_open::admit_rank(opened, rank)?;
    let change = Change::Delete(rank);
    timed_clubs::change(
        slots,
        counts,
        tallies,
        balance,
        &mut counts32,
        &mut work,
        sheet,
        change,
        0,
        tape,
    )
}

// The rank of the entry, or that it is not there and the rank at which it would stand.
pub fn find(
    slots: &[u64],
    counts: &[u16],
    tallies: &[u16],
    balance: &[u64],
    entry: u64,
) -> Result<Answer, Cause>
    ensures { timed_outcome_of result slots.now counts.now tallies.now balance.now []
        ≡ outcome (timed clubs) (call.find entry) [] (timed_store_of slots.now counts.now tallies.now balance.now) [] }
{
    let mut work = [0u32; 256];
    let sheet = timed_clubs::examine(slots, counts, tallies, balance, &mut work)?;
    if store_keys::key(entry) == 0 {
        return Err(Cause::EntryZero);
    }
    match store_search::search(Size { m: sheet.m }, slots, &work, balance, entry) {
        Ok(rank) => Ok(Answer::Present { rank: rank }),
        Err(rank) => Ok(Answer::Absent { rank: rank }),
    }
}

// Copies the entries of ranks first to last to the front of the output.
pub fn read(
    slots: &[u64],
    counts: &[u16],
    tallies: &[u16],
    balance: &[u64],
    first: usize,
    last: usize,
    output: &mut [u64],
) -> Result<Answer, Cause>
    ensures { timed_outcome_of result slots.now counts.now tallies.now balance.now output.new
        ≡ outcome (timed clubs) (call.read first last (length output.old)) []
        (timed_store_of slots.now counts.now tallies.now balance.now) output.old }
{
    let mut work = [0u32; 256];
    let opened = timed_clubs::examine(slots, counts, tallies, balance, &mut work);
    call_questions::read(opened, slots, &work, first, last, output)
}

// The place of the entry at the rank: that of her tied group, the sum of its places and the number of its boats; a retired boat has none.
pub fn place(
    slots: &[u64],
    counts: &[u16],
    tallies: &[u16],
    balance: &[u64],
    rank: usize,
) -> Result<Answer, Cause>
    ensures { timed_outcome_of result slots.now counts.now tallies.now balance.now []
        ≡ outcome (timed clubs) (call.place rank) [] (timed_store_of slots.now counts.now tallies.now balance.now) [] }
{
    let mut work = [0u32; 256];
    let mut numbers = [0u32; 256];
    let opened = timed_clubs::examine_numbers(
        slots,
        counts,
        tallies,
        balance,
        &mut work,
        &mut numbers,
    );
    call_questions::place(opened, slots, &work, &numbers, rank)
}

// The number of entries of a sheet.
pub fn check(
    slots: &[u64],
    counts: &[u16],
    tallies: &[u16],
    balance: &[u64],
) -> Result<Answer, Cause>
    ensures { timed_outcome_of result slots.now counts.now tallies.now balance.now []
        ≡ outcome (timed clubs) call.check [] (timed_store_of slots.now counts.now tallies.now balance.now) [] }
{
    let mut work = [0u32; 256];
    let opened = timed_clubs::examine(slots, counts, tallies, balance, &mut work);
    call_questions::check(opened)
}

// Copies the entries at the ranks, at most 64 that do not fall, to the front of the output.
pub fn board(
    slots: &[u64],
    counts: &[u16],
    tallies: &[u16],
    balance: &[u64],
    ranks: &[u64],
    output: &mut [u64],
) -> Result<Answer, Cause>
    ensures { timed_outcome_of result slots.now counts.now tallies.now balance.now output.new
        ≡ outcome (timed clubs) (call.board ranks.now (length output.old)) []
        (timed_store_of slots.now counts.now tallies.now balance.now) output.old }
{
    let mut work = [0u32; 256];
    let opened = timed_clubs::examine(slots, counts, tallies, balance, &mut work);
    call_questions::board(opened, slots, &work, ranks, output)
}
