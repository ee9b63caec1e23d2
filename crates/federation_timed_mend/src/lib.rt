// A spoiled timed store of the federation mended: the counts, the tallies and the third slice of the timed sheet that has its slots and its size
// parameter.
#![tactic(auto)]

ghost use Rattle.std.specs.Prelude.{◌≡◌, []};
ghost use Rattle.call_outcomes.specs.Federation.{federation};
ghost use Rattle.call_timed.specs.Timed.{timed_view, timed_store_of, timed_outcome_of};
ghost use Rattle.call_mend.specs.Mending.{mended};
ghost use Rattle.call_mend.specs.Views.{timed_store};

use call_outcomes::{Answer, Cause};
use tree_sizes::Size;

// Makes the store the timed sheet that has its slots and its size parameter, if there is one. Count 0 is that size parameter, and is not written.
pub fn mend(
    slots: &[u64],
    counts: &mut [u32],
    tallies: &mut [u32],
    balance: &mut [u64],
) -> Result<Answer, Cause>
    ensures { timed_outcome_of result slots.now counts.new tallies.new balance.new []
        ≡ mended (timed_view federation) (timed_store federation) (timed_store_of slots.now counts.old tallies.old balance.old) }
{
    let cap = federation_store::capacity();
    if !timed_open::right_lengths(cap, slots.len(), counts.len(), tallies.len(), balance.len()) {
        return Err(Cause::Lengths);
    }
    let m = counts[0] as usize;
    let mut work = [0u32; 8192];
    let mut fresh = [0u32; 8192];
    let sheet = sheet_recount::recount(cap, slots, m, &mut work, &mut fresh)?;
    let size = Size { m: sheet.m };
    if !store_keys::entries_rise(slots, size.slots()) {
        return Err(Cause::NotMendable);
    }
    let mut numbers = [0u32; 8192];
    sheet_recount::tally(cap, sheet, slots, &fresh, &work, &mut numbers, tallies);
    store_tally_copies::copy_ranges(counts, &fresh);
    store_balance::write_balance(size, slots, balance);
    Ok(Answer::Mended { n: sheet.n })
}
