// A change of the clubs' sheet that no cause before 7 refuses, carried out.
#![tactic(auto)]

ghost use Rattle.std.specs.Prelude.{◌≡◌, ◌&&◌, not, List, [], ℕ, ◌*◌, ◌^◌, ◌<◌, ◌≤◌, eqb, length, get_or};
ghost use Rattle.tree_sizes.specs.Sizes.{height};
ghost use Rattle.store_order.specs.CountOrder.{count_order, number_order};
ghost use Rattle.store_scoring.specs.Scoring.{retired_bit};
ghost use Rattle.store_tallies.specs.TalliesIn.{TalliesIn};
ghost use Rattle.call_outcomes.specs.Outcome.{outcome};
ghost use Rattle.call_outcomes.specs.PlainCalls.{changing};
ghost use Rattle.call_outcomes.specs.Plain.{plain, plain_store_of, plain_outcome_of};
ghost use Rattle.call_outcomes.specs.Clubs.{clubs};
ghost use Rattle.sheet_change.specs.Made.{answer_to, MadeIn};
ghost use Rattle.sheet_change.specs.PlainReady.{PlainReady, TalliesAfter, LeftSheet};

use call_change::DrawnChange;
use call_open::Opened;
use sheet_change::Made;
use tree_rules::Change;
use tree_sizes::Size;

// No boat on the sheet of n entries with these tallies is retired, and none comes in.
fn all_score(tallies: &[u16], n: usize, entry: u64) -> bool
    requires { 1 < length tallies.now }
    ensures { result ≡ (eqb (get_or tallies.now 1 0) n && not (retired_bit entry)) }
{
    let root = tallies[1] as usize;
    if root != n {
        return false;
    }
    !store_scoring::is_retired(entry)
}

// Makes the tallies those that the slots give after the drawn change, whose counts the work array has by range number.
fn write_tallies(
    slots: &[u64],
    counts32: &[u32],
    work: &[u32],
    tallies: &mut [u16],
    drawn: DrawnChange,
)
    requires old { 2 * 2 ^ height drawn.old ≤ 256 }
    requires tallies { length tallies.old ≡ 256 }
    requires left { LeftSheet clubs drawn.new slots.now counts32.now tallies.old }
    requires ready { TalliesAfter drawn slots.now tallies.old work.now (number_order (height drawn.old) tallies.old) }
    ensures { (words : List ℕ) → TalliesIn drawn.new slots.now words → length words ≡ length tallies.old
        → tallies.new ≡ count_order (height drawn.new) words }
{
    let mut tallies32 = [0u32; 256];
    let mut numbers = [0u32; 256];
    store_widths::widen(tallies, &mut tallies32);
    let old = Size { m: drawn.old };
    store_counts::read_counts(old, &tallies32, &mut numbers);
    let new = Size { m: drawn.new };
    let part = drawn.part;
    call_tallies::write_tallies(new, part, slots, work, &mut tallies32, &mut numbers);
    store_widths::narrow(&tallies32, tallies);
}

// Makes the change of the sheet that the store was found to hold, whose counts `counts32` has as they stand, and the work array by range
// number. Everything is drawn in the work array; the slices are written only after that, the tallies last. Where no boat is retired these are
// the counts. Where the tape ends nothing is written, and nothing made.
pub fn make(
    slots: &mut [u64],
    counts: &mut [u16],
    tallies: &mut [u16],
    counts32: &mut [u32],
    work: &mut [u32],
    sheet: Opened,
    change: Change,
    entry: u64,
    tape: &[u32],
) -> Option<Made>
    requires sheet { PlainReady clubs change entry sheet.n sheet.m (plain_store_of slots.old counts.old tallies.old) work.old }
    requires same { counts32.old ≡ counts.old }
    ensures { (plain_outcome_of (answer_to result) slots.new counts.new tallies.new []
        ≡ outcome (plain clubs) (changing change entry) tape.now (plain_store_of slots.old counts.old tallies.old) [])
        × MadeIn sheet.m slots.old result slots.new counts.new }
{
    let Opened { n, m } = sheet;
    let after = change.count_after(n);
    let scoring = all_score(tallies, n, entry);
    let updated = tree_update::update(change, n, m, work, tape)?;
    let drawn = DrawnChange {
        old: m,
        new: updated.m,
        part: updated.part,
        change: change,
        entry: entry,
    };
    sheet_change::write_small(slots, counts32, work, drawn);
    store_widths::narrow(counts32, counts);
    if scoring {
        store_widths::narrow_counts(counts32, tallies);
    } else {
        write_tallies(slots, counts32, work, tallies, drawn);
    }
    Some(Made {
        n: after,
        words: updated.next,
        m: updated.m,
        part: updated.part,
    })
}
