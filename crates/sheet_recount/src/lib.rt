// The sheet with given slots and size parameter, in a store of any capacity: its counts are what the slots give.
#![tactic(auto)]

ghost use Rattle.std.specs.Prelude.{◌≡◌, length, replicate};
ghost use Rattle.store_layout.specs.Room.{CapacityReady};
ghost use Rattle.call_outcomes.specs.Untallied.{store_of};
ghost use Rattle.call_open.specs.Opening.{OpenedSheet};
ghost use Rattle.sheet_recount.specs.Recount.{Recounted, TalliesOf};

use call_open::Opened;
use call_outcomes::Cause;
use store_layout::Capacity;
use tree_sizes::Size;

// Looks for the sheet with these slots and this size parameter: its counts are what the slots give, by range number in the work array, and in
// their order in `fresh`; or there is none.
pub fn recount(
    cap: Capacity,
    slots: &[u64],
    m: usize,
    work: &mut [u32],
    fresh: &mut [u32],
) -> Result<Opened, Cause>
    requires ready { CapacityReady cap }
    requires slots { length slots.now ≡ cap.slots }
    requires work { work.old ≡ replicate cap.counts 0 }
    requires fresh { length fresh.old ≡ cap.counts }
    ensures { Recounted cap slots.now m result work.new fresh.new }
{
    if store_test::greatest_size(cap.entries) < m {
        return Err(Cause::NotMendable);
    }
    let size = Size { m: m };
    store_sums::count_entries(size, slots, work);
    store_counts::write_counts(size, work, fresh);
    call_open::examine(cap, slots, fresh, work).or(Err(Cause::NotMendable))
}

// Makes the tallies those of the sheet with the fresh counts. They are worked out in `numbers`, which are 0.
pub fn tally(
    cap: Capacity,
    sheet: Opened,
    slots: &[u64],
    fresh: &[u32],
    work: &[u32],
    numbers: &mut [u32],
    tallies: &mut [u32],
)
    requires ready { CapacityReady cap }
    requires sheet { OpenedSheet cap (store_of slots.now fresh.now) sheet.n sheet.m work.now }
    requires numbers { numbers.old ≡ replicate cap.counts 0 }
    requires tallies { length tallies.old ≡ cap.counts }
    ensures { TalliesOf cap slots.now fresh.now tallies.new }
{
    let size = Size { m: sheet.m };
    if store_scoring::none_retired(slots, size.slots()) {
        store_tally_copies::copy_counts(tallies, fresh);
    } else {
        call_tallies::fresh_tallies(size, slots, work, numbers, tallies);
    }
}
