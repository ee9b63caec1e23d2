// The clubs' store looked at: its counts and tallies, which have 16 bits, are widened for the calls of any capacity.
#![tactic(auto)]

ghost use Rattle.std.proofs.Math.Option.{some};
ghost use Rattle.std.specs.Prelude.{◌≡◌, ◌*◌, ◌^◌, ◌≤◌, length};
ghost use Rattle.tree_sizes.specs.Sizes.{height};
ghost use Rattle.store_order.specs.CountOrder.{number_order};
ghost use Rattle.store_layout.specs.Decode.{Contents, decode};
ghost use Rattle.call_outcomes.specs.Untallied.{store_of};
ghost use Rattle.call_outcomes.specs.Slice.{slice_test};
ghost use Rattle.call_outcomes.specs.Plain.{tally_slice, plain_view, plain_store_of};
ghost use Rattle.call_outcomes.specs.Clubs.{clubs};
ghost use Rattle.call_open.specs.Opening.{plain_numbers, Opening, OpenedSheet};
ghost use Rattle.sheet_open.specs.PlainOpening.{PlainOpening};
ghost use Rattle.sheet_clubs.specs.Widened.{Widened};

use call_open::Opened;
use call_outcomes::Cause;
use store_layout::Capacity;
use tree_sizes::Size;

// What the clubs' store has room for.
pub fn capacity() -> Capacity
    ensures { result ≡ clubs }
{
    Capacity {
        entries: 1024,
        slots: 4224,
        counts: 256,
    }
}

// The tallies are those of the sheet in slots and counts, whose counts the work array has by range number. Where the tally of the
// whole sheet is the number of its entries no boat may be retired, and the tallies are the counts.
fn is_tallied(sheet: Opened, slots: &[u64], counts32: &[u32], work: &[u32], tallies: &[u16]) -> bool
    requires sheet { OpenedSheet clubs (store_of slots.now counts32.now) sheet.n sheet.m work.now }
    requires tallies { length tallies.now ≡ 256 }
    ensures { (c : Contents) → decode clubs (store_of slots.now counts32.now) ≡ some c
        → result ≡ slice_test (tally_slice clubs) tallies.now c }
{
    let size = Size { m: sheet.m };
    let root = tallies[1] as usize;
    if root == sheet.n {
        if !store_scoring::none_retired(slots, size.slots()) {
            return false;
        }
        return store_widths::are_counts(tallies, counts32);
    }
    let mut tallies32 = [0u32; 256];
    let mut numbers = [0u32; 256];
    store_widths::widen(tallies, &mut tallies32);
    call_tallies::are_tallies(size, slots, work, &tallies32, &mut numbers)
}

// Looks at slots, counts and tallies: where they are a plain sheet, `counts32` has the counts as they stand, and `work` by range number; or cause
// 1 or 2 decides.
pub fn open(
    slots: &[u64],
    counts: &[u16],
    tallies: &[u16],
    counts32: &mut [u32],
    work: &mut [u32],
) -> Result<Opened, Cause>
    requires counts32 { length counts32.old ≡ 256 }
    requires work { length work.old ≡ 256 }
    ensures { Opening (plain_view clubs) plain_numbers (plain_store_of slots.now counts.now tallies.now) result work.new
        × Widened result counts.now counts32.new }
{
    if !sheet_open::right_lengths(capacity(), slots.len(), counts.len(), tallies.len()) {
        return Err(Cause::Lengths);
    }
    store_widths::widen(counts, counts32);
    let sheet = call_open::examine(capacity(), slots, counts32, work)?;
    if !is_tallied(sheet, slots, counts32, work, tallies) {
        return Err(Cause::NotASheet);
    }
    Ok(sheet)
}

// Looks at slots, counts and tallies: where they are a plain sheet, `work` has the counts by range number; or cause 1 or 2 decides.
pub fn examine(
    slots: &[u64],
    counts: &[u16],
    tallies: &[u16],
    work: &mut [u32],
) -> Result<Opened, Cause>
    requires { length work.old ≡ 256 }
    ensures { Opening (plain_view clubs) plain_numbers (plain_store_of slots.now counts.now tallies.now) result work.new }
{
    let mut counts32 = [0u32; 256];
    open(slots, counts, tallies, &mut counts32, work)
}

// Looks at slots, counts and tallies: where they are a plain sheet, `work` has the counts and `numbers` the tallies by range number; or cause 1
// or 2 decides.
pub fn examine_numbers(
    slots: &[u64],
    counts: &[u16],
    tallies: &[u16],
    work: &mut [u32],
    numbers: &mut [u32],
) -> Result<Opened, Cause>
    requires work { length work.old ≡ 256 }
    requires numbers { length numbers.old ≡ 256 }
    ensures { PlainOpening clubs (plain_store_of slots.now counts.now tallies.now) result work.new numbers.new }
{
    if !sheet_open::right_lengths(capacity(), slots.len(), counts.len(), tallies.len()) {
        return Err(Cause::Lengths);
    }
    let mut counts32 = [0u32; 256];
    let mut tallies32 = [0u32; 256];
    store_widths::widen(counts, &mut counts32);
    store_widths::widen(tallies, &mut tallies32);
    sheet_open::examine(capacity(), slots, &counts32, &tallies32, work, numbers)
}

// Copies the counts of a sheet of this size into a work array, by range number.
pub fn read_counts(size: Size, counts: &[u16], work: &mut [u32])
    requires counts { length counts.now ≡ 256 }
    requires work { length work.old ≡ 256 }
    requires room { 2 * 2 ^ height size.m ≤ 256 }
    ensures { work.new ≡ number_order (height size.m) counts.now }
{
    let mut counts32 = [0u32; 256];
    store_widths::widen(counts, &mut counts32);
    store_counts::read_counts(size, &counts32, work);
}
