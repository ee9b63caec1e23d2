// A plain store of any capacity looked at: the causes 1 and 2.
#![tactic(auto)]

ghost use Rattle.std.specs.Prelude.{true, ◌&&◌, ◌≡◌, eqb, length};
ghost use Rattle.std.proofs.Math.Option.{some};
ghost use Rattle.tree_sizes.specs.Sizes.{height};
ghost use Rattle.store_order.specs.CountOrder.{number_order};
ghost use Rattle.store_layout.specs.Decode.{Contents, decode};
ghost use Rattle.store_layout.specs.Room.{CapacityReady};
ghost use Rattle.call_outcomes.specs.Untallied.{store_of};
ghost use Rattle.call_outcomes.specs.Slice.{slice_test};
ghost use Rattle.call_outcomes.specs.Plain.{tally_slice, plain_store_of};
ghost use Rattle.call_open.specs.Opening.{OpenedSheet};
ghost use Rattle.sheet_open.specs.PlainOpening.{PlainOpening};

use call_open::Opened;
use call_outcomes::Cause;
use store_layout::Capacity;
use tree_sizes::Size;

// Slices of these lengths are a plain store of the capacity.
pub fn right_lengths(cap: Capacity, slots: usize, counts: usize, tallies: usize) -> bool
    ensures { result ≡ (eqb slots cap.slots && eqb counts cap.counts && eqb tallies cap.counts) }
{
    if slots != cap.slots {
        return false;
    }
    if counts != cap.counts {
        return false;
    }
    tallies == cap.counts
}

// The tallies are those of the sheet in slots and counts, whose counts the work array has by range number. Where the tally of the
// whole sheet is the number of its entries no boat may be retired, and the tallies are the counts. `numbers` gets the tallies by range number.
fn is_tallied(
    cap: Capacity,
    sheet: Opened,
    slots: &[u64],
    counts: &[u32],
    work: &[u32],
    tallies: &[u32],
    numbers: &mut [u32],
) -> bool
    requires ready { CapacityReady cap }
    requires sheet { OpenedSheet cap (store_of slots.now counts.now) sheet.n sheet.m work.now }
    requires tallies { length tallies.now ≡ cap.counts }
    requires numbers { length numbers.old ≡ cap.counts }
    ensures { ((c : Contents) → decode cap (store_of slots.now counts.now) ≡ some c
        → result ≡ slice_test (tally_slice cap) tallies.now c)
        × (result ≡ true → numbers.new ≡ number_order (height sheet.m) tallies.now) }
{
    let size = Size { m: sheet.m };
    if store_tally_copies::root_tally(tallies) == sheet.n {
        if !store_scoring::none_retired(slots, size.slots()) {
            return false;
        }
        store_tally_copies::copy_counts(numbers, work);
        return store_tally_copies::are_counts(tallies, counts);
    }
    call_tallies::are_tallies(size, slots, work, tallies, numbers)
}

// Looks at slots, counts and tallies: the lengths are right and they are a plain sheet, whose counts are copied to the work array by range
// number, and whose tallies to `numbers`; or cause 1 or 2 decides.
pub fn examine(
    cap: Capacity,
    slots: &[u64],
    counts: &[u32],
    tallies: &[u32],
    work: &mut [u32],
    numbers: &mut [u32],
) -> Result<Opened, Cause>
    requires ready { CapacityReady cap }
    requires work { length work.old ≡ cap.counts }
    requires numbers { length numbers.old ≡ cap.counts }
    ensures { PlainOpening cap (plain_store_of slots.now counts.now tallies.now) result work.new numbers.new }
{
    if tallies.len() != cap.counts {
        return Err(Cause::Lengths);
    }
    let sheet = call_open::examine(cap, slots, counts, work)?;
    if !is_tallied(cap, sheet, slots, counts, work, tallies, numbers) {
        return Err(Cause::NotASheet);
    }
    Ok(sheet)
}
