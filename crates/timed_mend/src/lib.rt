// A spoiled timed store of the clubs mended: the counts, the tallies and the third slice of the timed sheet that has its slots and its size parameter.
#![tactic(auto)]

ghost use Rattle.std.specs.Prelude.{◌≡◌, []};
ghost use Rattle.call_outcomes.specs.Clubs.{clubs};
ghost use Rattle.call_timed.specs.Timed.{timed_view, timed_store_of, timed_outcome_of};
ghost use Rattle.call_mend.specs.Mending.{mended};
ghost use Rattle.call_mend.specs.Views.{timed_store};

use call_outcomes::{Answer, Cause};
use tree_sizes::Size;

// Makes the store the timed sheet that has its slots and its size parameter, if there is one.
pub fn mend(
    slots: &[u64],
    counts: &mut [u16],
    tallies: &mut [u16],
    balance: &mut [u64],
) -> Result<Answer, Cause>
    ensures { timed_outcome_of result slots.now counts.new tallies.new balance.new []
        ≡ mended (timed_view clubs) (timed_store clubs) (timed_store_of slots.now counts.old tallies.old balance.old) }
{
    let cap = sheet_clubs::capacity();
    if !timed_open::right_lengths(cap, slots.len(), counts.len(), tallies.len(), balance.len()) {
        return Err(Cause::Lengths);
    }
    let m = counts[0] as usize;
    let mut work = [0u32; 256];
    let mut fresh = [0u32; 256];
    let sheet = sheet_recount::recount(cap, slots, m, &mut work, &mut fresh)?;
    let size = Size { m: sheet.m };
    if !store_keys::entries_rise(slots, size.slots()) {
        return Err(Cause::NotMendable);
    }
    sheet_mend::put_in(sheet, slots, &fresh, &work, counts, tallies);
    store_balance::write_balance(size, slots, balance);
    Ok(Answer::Mended { n: sheet.n })
}
