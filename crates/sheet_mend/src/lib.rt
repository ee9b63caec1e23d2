// A spoiled store of the clubs mended: the counts and the tallies of the sheet that has its slots and its size parameter.
#![tactic(auto)]

ghost use Rattle.std.specs.Prelude.{◌≡◌, [], length, get_or};
ghost use Rattle.call_outcomes.specs.Untallied.{store_of};
ghost use Rattle.call_outcomes.specs.Plain.{plain_view, plain_store_of, plain_outcome_of};
ghost use Rattle.call_outcomes.specs.Clubs.{clubs};
ghost use Rattle.call_mend.specs.Mending.{mended};
ghost use Rattle.call_mend.specs.Views.{plain_store};
ghost use Rattle.call_open.specs.Opening.{OpenedSheet};
ghost use Rattle.sheet_recount.specs.Recount.{TalliesOf};

use call_open::Opened;
use call_outcomes::{Answer, Cause};

// Makes counts and tallies those of the sheet with the fresh counts. Count 0, the size parameter, is not written.
pub fn put_in(
    sheet: Opened,
    slots: &[u64],
    fresh: &[u32],
    work: &[u32],
    counts: &mut [u16],
    tallies: &mut [u16],
)
    requires sheet { OpenedSheet clubs (store_of slots.now fresh.now) sheet.n sheet.m work.now }
    requires counts { length counts.old ≡ 256 }
    requires tallies { length tallies.old ≡ 256 }
    requires kept { get_or counts.old 0 0 ≡ sheet.m }
    ensures { (counts.new ≡ fresh.now) × TalliesOf clubs slots.now fresh.now tallies.new }
{
    let cap = sheet_clubs::capacity();
    let mut numbers = [0u32; 256];
    let mut tallied = [0u32; 256];
    sheet_recount::tally(cap, sheet, slots, fresh, work, &mut numbers, &mut tallied);
    store_widths::narrow_ranges(fresh, counts);
    store_widths::narrow(&tallied, tallies);
}

// Makes the store the sheet that has its slots and its size parameter, if there is one.
pub fn mend(slots: &[u64], counts: &mut [u16], tallies: &mut [u16]) -> Result<Answer, Cause>
    ensures { plain_outcome_of result slots.now counts.new tallies.new []
        ≡ mended (plain_view clubs) (plain_store clubs) (plain_store_of slots.now counts.old tallies.old) }
{
    let cap = sheet_clubs::capacity();
    if !sheet_open::right_lengths(cap, slots.len(), counts.len(), tallies.len()) {
        return Err(Cause::Lengths);
    }
    let m = counts[0] as usize;
    let mut work = [0u32; 256];
    let mut fresh = [0u32; 256];
    let sheet = sheet_recount::recount(cap, slots, m, &mut work, &mut fresh)?;
    put_in(sheet, slots, &fresh, &work, counts, tallies);
    Ok(Answer::Mended { n: sheet.n })
}
