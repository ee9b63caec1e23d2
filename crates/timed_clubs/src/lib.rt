// The clubs' timed store looked at, and a change of it carried out.
#![tactic(auto)]

ghost use Rattle.std.specs.Prelude.{◌≡◌, [], length};
ghost use Rattle.call_outcomes.specs.Outcome.{outcome};
ghost use Rattle.call_outcomes.specs.PlainCalls.{changing};
ghost use Rattle.call_outcomes.specs.Clubs.{clubs};
ghost use Rattle.call_open.specs.Opening.{Opening};
ghost use Rattle.call_timed.specs.Timed.{timed_view, ranked, timed_store_of, timed_numbers, timed_outcome_of};
ghost use Rattle.sheet_clubs.specs.Widened.{Widened};
ghost use Rattle.timed_open.specs.TimedLook.{TimedOpening};
ghost use Rattle.timed_answers.specs.RankedReady.{RankedReady};

use call_open::Opened;
use call_outcomes::{Answer, Cause};
use tree_rules::Change;
use tree_sizes::Size;

// Looks at a timed store: where it is a timed sheet, `counts32` has the counts as they stand, and `work` by range number; or cause 1, 2 or 11
// decides.
pub fn open(
    slots: &[u64],
    counts: &[u16],
    tallies: &[u16],
    balance: &[u64],
    counts32: &mut [u32],
    work: &mut [u32],
) -> Result<Opened, Cause>
    requires counts32 { length counts32.old ≡ 256 }
    requires work { length work.old ≡ 256 }
    ensures { Opening (timed_view clubs) timed_numbers
        (timed_store_of slots.now counts.now tallies.now balance.now) result work.new
        × Widened result counts.now counts32.new }
{
    if balance.len() != 256 {
        return Err(Cause::Lengths);
    }
    let opened = sheet_clubs::open(slots, counts, tallies, counts32, work);
    let mut right = [0u64; 256];
    timed_open::admit_timed(opened, slots, balance, &mut right)
}

// Looks at a timed store: where it is a timed sheet, `work` has the counts by range number; or cause 1, 2 or 11 decides.
pub fn examine(
    slots: &[u64],
    counts: &[u16],
    tallies: &[u16],
    balance: &[u64],
    work: &mut [u32],
) -> Result<Opened, Cause>
    requires { length work.old ≡ 256 }
    ensures { Opening (timed_view clubs) timed_numbers
        (timed_store_of slots.now counts.now tallies.now balance.now) result work.new }
{
    let mut counts32 = [0u32; 256];
    open(slots, counts, tallies, balance, &mut counts32, work)
}

// Looks at a timed store: where it is a timed sheet, `work` has the counts and `numbers` the tallies by range number; or cause 1, 2 or 11 decides.
pub fn examine_numbers(
    slots: &[u64],
    counts: &[u16],
    tallies: &[u16],
    balance: &[u64],
    work: &mut [u32],
    numbers: &mut [u32],
) -> Result<Opened, Cause>
    requires work { length work.old ≡ 256 }
    requires numbers { length numbers.old ≡ 256 }
    ensures { TimedOpening clubs (timed_store_of slots.now counts.now tallies.now balance.now) result
        work.new numbers.new }
{
    if balance.len() != 256 {
        return Err(Cause::Lengths);
    }
    let opened = sheet_clubs::examine_numbers(slots, counts, tallies, work, numbers);
    let mut right = [0u64; 256];
    timed_open::admit_timed(opened, slots, balance, &mut right)
}

// Carries out the change of the plain sheet in the timed one, and then makes the third slice the one that the new slots give. Where the tape
// ends nothing is written.
pub fn change(
    slots: &mut [u64],
    counts: &mut [u16],
    tallies: &mut [u16],
    balance: &mut [u64],
    counts32: &mut [u32],
    work: &mut [u32],
    sheet: Opened,
    change: Change,
    entry: u64,
    tape: &[u32],
) -> Result<Answer, Cause>
    requires sheet { RankedReady clubs change entry sheet.n sheet.m (timed_store_of slots.old counts.old tallies.old balance.old) work.old }
    requires same { counts32.old ≡ counts.old }
    ensures { timed_outcome_of result slots.new counts.new tallies.new balance.new []
        ≡ outcome (ranked clubs) (changing change entry) tape.now
        (timed_store_of slots.old counts.old tallies.old balance.old) [] }
{
    let made = sheet_clubs_change::make(
        slots, counts, tallies, counts32, work, sheet, change, entry, tape,
    )
    .ok_or(Cause::TapeEnded)?;
    store_balance_part::write_part(Size { m: made.m }, made.part, slots, balance);
    Ok(Answer::Changed {
        n: made.n,
        words: made.words,
    })
}
