// The federation's timed sheet changed: an insert by an entry and a delete at a rank, on a store of four lent slices.
#![tactic(auto)]

ghost use Rattle.std.specs.Prelude.{◌≡◌, []};
ghost use Rattle.call_outcomes.specs.Outcome.{outcome};
ghost use Rattle.call_outcomes.specs.Federation.{federation};
ghost use Rattle.call_timed.specs.Timed as call;
ghost use Rattle.call_timed.specs.Timed.{timed, timed_store_of, timed_outcome_of};

use call_outcomes::{Answer, Cause};
use tree_rules::Change;
use tree_sizes::Size;

// Puts the entry in at the rank of its key.
pub fn insert(
    slots: &mut [u64],
    counts: &mut [u32],
    tallies: &mut [u32],
    balance: &mut [u64],
    entry: u64,
    tape: &[u32],
) -> Result<Answer, Cause>
    ensures { timed_outcome_of result slots.new counts.new tallies.new balance.new []
        ≡ outcome (timed federation) (call.insert entry) tape.now (timed_store_of slots.old counts.old tallies.old balance.old) [] }
{
    let mut work = [0u32; 8192];
    let mut numbers = [0u32; 8192];
    let sheet = federation_timed::examine(
        slots,
        counts,
        tallies,
        balance,
        &mut work,
        &mut numbers,
    )?;
    if store_keys::key(entry) == 0 {
        return Err(Cause::EntryZero);
    }
    match store_search::search(Size { m: sheet.m }, slots, &work, balance, entry) {
        Ok(_) => Err(Cause::EntryPresent),
        Err(rank) => {
            if 65536 <= sheet.n {
                return Err(Cause::Full);
            }
            let change = Change::Insert(rank);
            federation_timed::change(
                slots,
                counts,
                tallies,
                balance,
                &mut work,
                &mut numbers,
                sheet,
                change,
                entry,
                tape,
            )
        }
    }
}

// Takes the entry at the rank out.
pub fn delete(
    slots: &mut [u64],
    counts: &mut [u32],
    tallies: &mut [u32],
    balance: &mut [u64],
    rank: usize,
    tape: &[u32],
) -> Result<Answer, Cause>
    ensures { timed_outcome_of result slots.new counts.new tallies.new balance.new []
        ≡ outcome (timed federation) (call.delete rank) tape.now (timed_store_of slots.old counts.old tallies.old balance.old) [] }
{
    let mut work = [0u32; 8192];
    let mut numbers = [0u32; 8192];
    let opened = federation_timed::examine(
        slots,
        counts,
        tallies,
        balance,
        &mut work,
        &mut numbers,
    );
    let sheet = call_open::admit_rank(opened, rank)?;
    let change = Change::Delete(rank);
    federation_timed::change(
        slots,
        counts,
        tallies,
        balance,
        &mut work,
        &mut numbers,
        sheet,
        change,
        0,
        tape,
    )
}
