// A timed store of any capacity looked at: its lengths, and cause 11.
#![tactic(auto)]

ghost use Rattle.std.specs.Prelude.{◌&&◌, ◌≡◌, ◌^◌, ◌≤◌, ◌<◌, eqb, length};
ghost use Rattle.tree_sizes.specs.Sizes as sizes;
ghost use Rattle.timed_open.specs.TimedLook.{timed_test, timed_look, LookReady};

use call_open::Opened;
use call_outcomes::Cause;
use store_layout::Capacity;
use tree_sizes::Size;

// Slices of these lengths are a timed store of the capacity.
pub fn right_lengths(
    cap: Capacity,
    slots: usize,
    counts: usize,
    tallies: usize,
    balance: usize,
) -> bool
    ensures { result ≡ ((eqb slots cap.slots && eqb counts cap.counts && eqb tallies cap.counts) && eqb balance cap.counts) }
{
    if !sheet_open::right_lengths(cap, slots, counts, tallies) {
        return false;
    }
    balance == cap.counts
}

// The entries of a sheet of this size rise, and the third slice is the one that its slots give, which is written into `right`.
fn is_timed(size: Size, slots: &[u64], balance: &[u64], right: &mut [u64]) -> bool
    requires most { size.m < 2 ^ 32 }
    requires slots { sizes.slots size.m ≤ length slots.now }
    requires levels { 2 ^ sizes.height size.m ≤ length balance.now }
    requires right { length right.old ≡ length balance.now }
    ensures { result ≡ timed_test size.m slots.now balance.now }
{
    if !store_keys::entries_rise(slots, size.slots()) {
        return false;
    }
    store_balance::is_balance(size, slots, balance, right)
}

// What is left of the look at the plain store in a timed one, unless cause 11 decides.
pub fn admit_timed(
    opened: Result<Opened, Cause>,
    slots: &[u64],
    balance: &[u64],
    right: &mut [u64],
) -> Result<Opened, Cause>
    requires ready { LookReady opened slots.now balance.now }
    requires right { length right.old ≡ length balance.now }
    ensures { result ≡ timed_look opened slots.now balance.now }
{
    let sheet = opened?;
    if !is_timed(Size { m: sheet.m }, slots, balance, right) {
        return Err(Cause::NotTimed);
    }
    Ok(sheet)
}
