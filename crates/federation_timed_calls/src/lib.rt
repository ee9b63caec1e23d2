// The federation's timed sheet: cleared, and the questions about it, on a store of four lent slices.
#![tactic(auto)]

ghost use Rattle.std.specs.Prelude.{◌≡◌, [], length};
ghost use Rattle.call_outcomes.specs.Kind.{clear};
ghost use Rattle.call_outcomes.specs.Outcome.{outcome};
ghost use Rattle.call_outcomes.specs.Federation.{federation};
ghost use Rattle.call_timed.specs.Timed as call;
ghost use Rattle.call_timed.specs.Timed.{timed, timed_store_of, timed_outcome_of};

use call_outcomes::{Answer, Cause};
use tree_sizes::Size;

// Makes any contents the empty sheet.
pub fn clear(
    slots: &mut [u64],
    counts: &mut [u32],
    tallies: &mut [u32],
    balance: &mut [u64],
) -> Result<Answer, Cause>
    ensures { timed_outcome_of result slots.new counts.new tallies.new balance.new []
        ≡ outcome (timed federation) clear [] (timed_store_of slots.old counts.old tallies.old balance.old) [] }
{
    let cap = federation_store::capacity();
    if !timed_open::right_lengths(cap, slots.len(), counts.len(), tallies.len(), balance.len()) {
        return Err(Cause::Lengths);
    }
    store_slices::zero_slots(slots, 0, 208896);
    store_counts::zero_counts(counts);
    store_counts::zero_counts(tallies);
    store_slices::zero_slots(balance, 0, 8192);
    Ok(Answer::Cleared)
}

// The rank of the entry, or that it is not there and the rank at which it would stand.
pub fn find(
    slots: &[u64],
    counts: &[u32],
    tallies: &[u32],
    balance: &[u64],
    entry: u64,
) -> Result<Answer, Cause>
    ensures { timed_outcome_of result slots.now counts.now tallies.now balance.now []
        ≡ outcome (timed federation) (call.find entry) [] (timed_store_of slots.now counts.now tallies.now balance.now) [] }
{
    let mut work = [0u32; 8192];
    let mut numbers = [0u32; 8192];
    let sheet = federation_timed::examine(
        slots,
        counts,
        tallies,
        balance,
        &mut work,
        &mut numbers,
    )?;
    if store_keys::key(entry) == 0 {
        return Err(Cause::EntryZero);
    }
    match store_search::search(Size { m: sheet.m }, slots, &work, balance, entry) {
        Ok(rank) => Ok(Answer::Present { rank: rank }),
        Err(rank) => Ok(Answer::Absent { rank: rank }),
    }
}

// Copies the entries of ranks first to last to the front of the output.
pub fn read(
    slots: &[u64],
    counts: &[u32],
    tallies: &[u32],
    balance: &[u64],
    first: usize,
    last: usize,
    output: &mut [u64],
) -> Result<Answer, Cause>
    ensures { timed_outcome_of result slots.now counts.now tallies.now balance.now output.new
        ≡ outcome (timed federation) (call.read first last (length output.old)) []
        (timed_store_of slots.now counts.now tallies.now balance.now) output.old }
{
    let mut work = [0u32; 8192];
    let mut numbers = [0u32; 8192];
    let opened = federation_timed::examine(
        slots,
        counts,
        tallies,
        balance,
        &mut work,
        &mut numbers,
    );
    call_questions::read(opened, slots, &work, first, last, output)
}

// The place of the entry at the rank: that of her tied group, the sum of its places and the number of its boats; a retired boat has none.
pub fn place(
    slots: &[u64],
    counts: &[u32],
    tallies: &[u32],
    balance: &[u64],
    rank: usize,
) -> Result<Answer, Cause>
    ensures { timed_outcome_of result slots.now counts.now tallies.now balance.now []
        ≡ outcome (timed federation) (call.place rank) [] (timed_store_of slots.now counts.now tallies.now balance.now) [] }
{
    let mut work = [0u32; 8192];
    let mut numbers = [0u32; 8192];
    let opened = federation_timed::examine(
        slots,
        counts,
        tallies,
        balance,
        &mut work,
        &mut numbers,
    );
    call_questions::place(opened, slots, &work, &numbers, rank)
}

// The number of entries of a sheet.
pub fn check(
    slots: &[u64],
    counts: &[u32],
    tallies: &[u32],
    balance: &[u64],
) -> Result<Answer, Cause>
    ensures { timed_outcome_of result slots.now counts.now tallies.now balance.now []
        ≡ outcome (timed federation) call.check [] (timed_store_of slots.now counts.now tallies.now balance.now) [] }
{
    let mut work = [0u32; 8192];
    let mut numbers = [0u32; 8192];
    let opened = federation_timed::examine(
        slots,
        counts,
        tallies,
        balance,
        &mut work,
        &mut numbers,
    );
    call_questions::check(opened)
}

// Copies the entries at the ranks, at most 64 that do not fall, to the front of the output.
pub fn board(
    slots: &[u64],
    counts: &[u32],
    tallies: &[u32],
    balance: &[u64],
    ranks: &[u64],
    output: &mut [u64],
) -> Result<Answer, Cause>
    ensures { timed_outcome_of result slots.now counts.now tallies.now balance.now output.new
        ≡ outcome (timed federation) (call.board ranks.now (length output.old)) []
        (timed_store_of slots.now counts.now tallies.now balance.now) output.old }
{
    let mut work = [0u32; 8192];
    let mut numbers = [0u32; 8192];
    let opened = federation_timed::examine(
        slots,
        counts,
        tallies,
        balance,
        &mut work,
        &mut numbers,
    );
    call_questions::board(opened, slots, &work, ranks, output)
}
