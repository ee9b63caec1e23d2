// A spoiled store of the federation mended: the counts and the tallies of the sheet that has its slots and its size parameter.
#![tactic(auto)]

ghost use Rattle.std.specs.Prelude.{◌≡◌, []};
ghost use Rattle.call_outcomes.specs.Plain.{plain_view, plain_store_of, plain_outcome_of};
ghost use Rattle.call_outcomes.specs.Federation.{federation};
ghost use Rattle.call_mend.specs.Mending.{mended};
ghost use Rattle.call_mend.specs.Views.{plain_store};

use call_outcomes::{Answer, Cause};

// Makes the store the sheet that has its slots and its size parameter, if there is one. Count 0 is that size parameter, and is not written.
pub fn mend(slots: &[u64], counts: &mut [u32], tallies: &mut [u32]) -> Result<Answer, Cause>
    ensures { plain_outcome_of result slots.now counts.new tallies.new []
        ≡ mended (plain_view federation) (plain_store federation) (plain_store_of slots.now counts.old tallies.old) }
{
    if !federation_store::right_lengths(slots.len(), counts.len(), tallies.len()) {
        return Err(Cause::Lengths);
    }
    let cap = federation_store::capacity();
    let m = counts[0] as usize;
    let mut work = [0u32; 8192];
    let mut fresh = [0u32; 8192];
    let sheet = sheet_recount::recount(cap, slots, m, &mut work, &mut fresh)?;
    let mut numbers = [0u32; 8192];
    sheet_recount::tally(cap, sheet, slots, &fresh, &work, &mut numbers, tallies);
    store_tally_copies::copy_ranges(counts, &fresh);
    Ok(Answer::Mended { n: sheet.n })
}
