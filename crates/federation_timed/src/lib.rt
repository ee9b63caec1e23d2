// The federation's timed store looked at, and a change of it carried out.
#![tactic(auto)]

ghost use Rattle.std.specs.Prelude.{◌≡◌, [], length};
ghost use Rattle.tree_sizes.specs.Sizes.{height};
ghost use Rattle.store_order.specs.CountOrder.{number_order};
ghost use Rattle.call_outcomes.specs.Outcome.{outcome};
ghost use Rattle.call_outcomes.specs.PlainCalls.{changing};
ghost use Rattle.call_outcomes.specs.Federation.{federation};
ghost use Rattle.call_timed.specs.Timed.{ranked, timed_store_of, timed_outcome_of};
ghost use Rattle.timed_open.specs.TimedLook.{TimedOpening};
ghost use Rattle.timed_answers.specs.RankedReady.{RankedReady};

use call_open::Opened;
use call_outcomes::{Answer, Cause};
use tree_rules::Change;
use tree_sizes::Size;

// Looks at a timed store: where it is a timed sheet, `work` has the counts and `numbers` the tallies by range number; or cause 1, 2 or 11 decides.
pub fn examine(
    slots: &[u64],
    counts: &[u32],
    tallies: &[u32],
    balance: &[u64],
    work: &mut [u32],
    numbers: &mut [u32],
) -> Result<Opened, Cause>
    requires work { length work.old ≡ 8192 }
    requires numbers { length numbers.old ≡ 8192 }
    ensures { TimedOpening federation (timed_store_of slots.now counts.now tallies.now balance.now) result
        work.new numbers.new }
{
    if balance.len() != 8192 {
        return Err(Cause::Lengths);
    }
    let opened = federation_store::examine(slots, counts, tallies, work, numbers);
    let mut right = [0u64; 8192];
    timed_open::admit_timed(opened, slots, balance, &mut right)
}

// Carries out the change of the plain sheet in the timed one, and then makes the third slice the one that the new slots give. Where the tape
// ends nothing is written.
pub fn change(
    slots: &mut [u64],
    counts: &mut [u32],
    tallies: &mut [u32],
    balance: &mut [u64],
    work: &mut [u32],
    numbers: &mut [u32],
    sheet: Opened,
    change: Change,
    entry: u64,
    tape: &[u32],
) -> Result<Answer, Cause>
    requires sheet { RankedReady federation change entry sheet.n sheet.m (timed_store_of slots.old counts.old tallies.old balance.old) work.old }
    requires tallied { numbers.old ≡ number_order (height sheet.m) tallies.old }
    ensures { timed_outcome_of result slots.new counts.new tallies.new balance.new []
        ≡ outcome (ranked federation) (changing change entry) tape.now
        (timed_store_of slots.old counts.old tallies.old balance.old) [] }
{
    let made = federation_change::make(
        slots, counts, tallies, work, numbers, sheet, change, entry, tape,
    )
    .ok_or(Cause::TapeEnded)?;
    store_balance_part::write_part(Size { m: made.m }, made.part, slots, balance);
    Ok(Answer::Changed {
        n: made.n,
        words: made.words,
    })
}
