// The test whether a store is a sheet: its counts, its leaves, and that everything unused is zero.
#![tactic(auto)]

ghost use Rattle.std.specs.Prelude.{◌≡◌, ◌+◌, ◌-◌, ◌*◌, ◌/◌, ◌^◌, ◌<◌, ◌≤◌, ◌&&◌, length, ◌==◌, nat_le, nat_lt, slice_index};
ghost use Rattle.store_layout.specs.Decode.{sheet_test};
ghost use Rattle.store_layout.specs.Room.{CapacityReady};
ghost use Rattle.store_order.specs.CountOrder.{count_order};
ghost use Rattle.tree_sizes.specs.Sizes.{height};
ghost use Rattle.store_test.specs.Ready.{LevelTestReady, TreeTestReady, CountsTestReady, SlotsTestReady};
ghost use Rattle.store_test.specs.Check.{ranges_test, tree_test, counts_test, slots_test};

use store_layout::{Capacity, count_at};
use tree_sizes::Size;

// A range of n entries with c candidates has b entries in its left half and `right` in its right one: they add up, and the balance entry is a
// candidate. In 32-bit numbers, of which four are compared at once.
fn range_is_balanced(n: u32, b: u32, right: u32, half: u32, c: u32) -> bool
    requires few { (half ≤ c) × (c < 2 ^ 31) }
    ensures { result ≡ (b + right == n && nat_le (n - n / 2) (b + half) && nat_lt (b + half) (n - n / 2 + c)) }
{
    let left = std::num::wrapping_sub_u32(n, right);
    let behind = std::num::wrapping_add_u32(b, half);
    let place = std::num::wrapping_sub_u32(behind, n - n / 2);
    (right <= n) & (b == left) & (place < c)
}

// The ranges from `first` on, as many as the number `first`, each with c candidates: those of a level. The balance entry of each is a
// candidate, and the counts of its halves add up to its own. All are looked at, without a branch for each.
fn level_is_balanced(counts: &[u32], c: usize, first: usize) -> bool
    requires { LevelTestReady counts.now c first }
    ensures { result ≡ ranges_test counts.now c first first }
{
    let half = Size::half_candidates(c) as u32;
    let candidates = c as u32;
    let mut all = true;
    for k in first..2 * first {
        let n = counts[k];
        let b = counts[2 * k];
        let right = counts[2 * k + 1];
        all = all & range_is_balanced(n, b, right, half, candidates);
    }
    all
}

// The ranges of a sheet of size m, h above the leaves at its root, level by level: a half has half as many candidates, rounded up.
fn tree_is_balanced(m: usize, h: usize, counts: &[u32]) -> bool
    requires { TreeTestReady counts.now m h }
    ensures { result ≡ tree_test counts.now m h 0 1 }
{
    if h == 0 {
        return true;
    }
    let size = Size { m: m };
    let mut c = size.candidates(0);
    let mut all = true;
    let mut first: usize = 1;
    for _level in 0..h {
        let level = level_is_balanced(counts, c, first);
        all = all & level;
        c = Size::half_candidates(c);
        first = 2 * first;
    }
    all
}

// The greatest size parameter that n entries can have.
pub fn greatest_size(n: usize) -> usize
    requires few { n < 2 ^ 30 }
    ensures { result ≡ 2 * n - 1 }
{
    if n == 0 {
        return 0;
    }
    2 * n - 1
}

// The counts are those of a shape of at most `entries` entries, and 0 at every number that is not in use.
fn counts_are_shaped(entries: usize, counts: &[u32]) -> bool
    requires { CountsTestReady entries counts.now }
    ensures { result ≡ counts_test entries counts.now }
{
    let m = count_at(counts, 0);
    let n = count_at(counts, 1);
    if entries < n {
        return false;
    }
    if m < n {
        return false;
    }
    if greatest_size(n) < m {
        return false;
    }
    let size = Size { m: m };
    let h = size.height();
    if !tree_is_balanced(m, h, counts) {
        return false;
    }
    store_zeros::counts_are_zero(counts, 2 * tree_sizes::power(h))
}

// The slots are those of leaves with the numbers of entries that the counts tell, and 0 behind the last leaf.
fn slots_are_laid(slots: &[u64], counts: &[u32]) -> bool
    requires { SlotsTestReady slots.now counts.now }
    ensures { result ≡ slots_test slots.now counts.now }
{
    let m = count_at(counts, 0);
    let size = Size { m: m };
    let s = size.leaf_slots();
    let h = size.height();
    let leaves = tree_sizes::power(h);
    if !store_leaf_test::leaves_are_spread(slots, s, counts, leaves, leaves) {
        return false;
    }
    store_zeros::slots_are_zero(slots, s * leaves)
}

// The store with these slots, and these counts by range number, is a sheet.
pub fn is_sheet(cap: Capacity, slots: &[u64], counts: &[u32]) -> bool
    requires ready { CapacityReady cap }
    requires slots { length slots.now ≡ cap.slots }
    requires counts { length counts.now ≡ cap.counts }
    ensures { result
        ≡ sheet_test cap
        (record {
          slots = slots.entry.now;
          counts = count_order (height (slice_index counts.now 0)) counts.now;
        }) }
{
    let entries = cap.entries;
    if !counts_are_shaped(entries, counts) {
        return false;
    }
    slots_are_laid(slots, counts)
}
