// A change of the federation's sheet that no cause before 7 refuses, carried out. Its lists of up to 65,538 entries stand on the stack of instances
// of `write_by_list` that no other crate calls, so on that of no call of the clubs.
#![tactic(auto)]

ghost use Rattle.std.specs.Prelude.{◌≡◌, [], ◌≤◌, length, get_or};
ghost use Rattle.tree_sizes.specs.Sizes.{height};
ghost use Rattle.store_order.specs.CountOrder.{number_order};
ghost use Rattle.call_outcomes.specs.Outcome.{outcome};
ghost use Rattle.call_outcomes.specs.PlainCalls.{changing};
ghost use Rattle.call_outcomes.specs.Untallied.{store_of};
ghost use Rattle.call_outcomes.specs.Plain.{plain, plain_store_of, plain_outcome_of};
ghost use Rattle.call_outcomes.specs.Federation.{federation};
ghost use Rattle.call_change.specs.SheetChange.{entries_before, WriteReady, written};
ghost use Rattle.sheet_change.specs.Made.{answer_to, MadeIn};
ghost use Rattle.sheet_change.specs.PlainReady.{PlainReady};

use call_change::DrawnChange;
use call_open::Opened;
use sheet_change::Made;
use tree_rules::Change;
use tree_sizes::Size;

// Writes a drawn change whose part has at most 65,536 entries before it. A long list takes more time to make than a small part to lay out, so it is
// made only where the part needs it.
fn write_drawn(slots: &mut [u64], counts: &mut [u32], work: &[u32], drawn: DrawnChange)
    requires ready { WriteReady drawn (store_of slots.old counts.old) work.now }
    requires most { length (entries_before drawn slots.old) ≤ 65536 }
    ensures { store_of slots.new counts.new
        ≡ written drawn work.now (store_of slots.old counts.old) }
{
    let count = store_layout::count_at(work, drawn.part.range);
    if count <= 1023 {
        sheet_change::write_small(slots, counts, work, drawn);
    } else if count <= 8191 {
        call_change::write_by_list::<8194>(slots, counts, work, drawn);
    } else {
        call_change::write_by_list::<65538>(slots, counts, work, drawn);
    }
}

// Makes the change of the sheet that the store was found to hold, whose counts the work array has by range number, and `numbers` its tallies.
// Everything is drawn in the work array; the slices are written only after that, the tallies last. Where the tape ends nothing is written, and
// nothing made.
pub fn make(
    slots: &mut [u64],
    counts: &mut [u32],
    tallies: &mut [u32],
    work: &mut [u32],
    numbers: &mut [u32],
    sheet: Opened,
    change: Change,
    entry: u64,
    tape: &[u32],
) -> Option<Made>
    requires sheet { PlainReady federation change entry sheet.n sheet.m (plain_store_of slots.old counts.old tallies.old) work.old }
    requires tallied { numbers.old ≡ number_order (height sheet.m) tallies.old }
    ensures { (plain_outcome_of (answer_to result) slots.new counts.new tallies.new []
        ≡ outcome (plain federation) (changing change entry) tape.now (plain_store_of slots.old counts.old tallies.old) [])
        × MadeIn sheet.m slots.old result slots.new counts.new }
{
    let Opened { n, m } = sheet;
    let after = change.count_after(n);
    let updated = tree_update::update(change, n, m, work, tape)?;
    let drawn = DrawnChange {
        old: m,
        new: updated.m,
        part: updated.part,
        change: change,
        entry: entry,
    };
    write_drawn(slots, counts, work, drawn);
    call_tallies::write_tallies(
        Size { m: updated.m },
        updated.part,
        slots,
        work,
        tallies,
        numbers,
    );
    Some(Made {
        n: after,
        words: updated.next,
        m: updated.m,
        part: updated.part,
    })
}
