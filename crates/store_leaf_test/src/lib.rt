// The test whether slots are leaves with given numbers of entries: leaf by leaf, and by masks of the taken slots for leaves of the sizes that
// the clubs' sheets and the federation's list have.
#![tactic(auto)]

ghost use Rattle.std.specs.Prelude.{◌≡◌, ◌+◌, ◌*◌, ◌-◌, ◌≤◌, ◌<◌, take, drop};
ghost use Rattle.store_leaf_test.specs.Ready.{LeafTestReady, LeavesTestReady};
ghost use Rattle.store_leaf_test.specs.Check.{leaf_test, leaves_test};
ghost use Rattle.store_masks.specs.Mask.{masks};

use store_masks::{larger, table};

// The s slots from `from` on hold n entries at the places of the leaf rule, and 0 in every other slot: there are n entries, and no place is
// empty. The division stands before the count, so that the machine does both at once.
fn leaf_is_spread(slots: &[u64], from: usize, s: usize, n: usize) -> bool
    requires { LeafTestReady slots.now from s n }
    ensures { result ≡ leaf_test s n (take s (drop from slots.now)) }
{
    let step = store_layout::position_step(s, n);
    let mut position = store_layout::first_position(s, n, step);
    if store_sums::entries_in(slots, from, s) != n {
        return false;
    }
    for _k in 0..n {
        let slot = position.whole;
        if slots[from + slot] == 0 {
            return false;
        }
        position = position.plus(step, 2 * n);
    }
    true
}

// Leaves of s slots one after the other, from the first slot on: their numbers of entries stand in the counts from `first` on.
fn leaves_one_by_one(slots: &[u64], s: usize, counts: &[u32], first: usize, leaves: usize) -> bool
    requires { LeavesTestReady slots.now s counts.now first leaves }
    ensures { result ≡ leaves_test s (take leaves (drop first counts.now)) slots.now }
{
    let mut from: usize = 0;
    for count in &counts[first..first + leaves] {
        let n = *count as usize;
        if !leaf_is_spread(slots, from, s, n) {
            return false;
        }
        from += s;
    }
    true
}

// Leaves of 3 g slots one after the other: each has the mask of its number of entries. All are looked at, without a branch for each.
fn leaves_have_masks(
    slots: &[u64],
    g: usize,
    table: &[u64],
    counts: &[u32],
    first: usize,
    leaves: usize,
) -> bool
    requires ready { LeavesTestReady slots.now (3 * g) counts.now first leaves }
    requires few { g ≤ 20 }
    requires masks { table.now ≡ masks (3 * g) }
    ensures { result ≡ leaves_test (3 * g) (take leaves (drop first counts.now)) slots.now }
{
    let mut all = true;
    let mut from: usize = 0;
    for count in &counts[first..first + leaves] {
        let n = *count as usize;
        let taken = store_masks::taken_slots(slots, from, g);
        if taken != table[n] {
            all = false;
        }
        from += 3 * g;
    }
    all
}

// Leaves of s slots one after the other, for sizes that the clubs' tables do not have: by the masks of larger leaves, or one by one.
fn other_leaves_are_spread(
    slots: &[u64],
    s: usize,
    counts: &[u32],
    first: usize,
    leaves: usize,
) -> bool
    requires { LeavesTestReady slots.now s counts.now first leaves }
    ensures { result ≡ leaves_test s (take leaves (drop first counts.now)) slots.now }
{
    if s == 36 {
        return leaves_have_masks(slots, 12, &larger::masks_of_36(), counts, first, leaves);
    }
    if s == 39 {
        return leaves_have_masks(slots, 13, &larger::masks_of_39(), counts, first, leaves);
    }
    if s == 42 {
        return leaves_have_masks(slots, 14, &larger::masks_of_42(), counts, first, leaves);
    }
    if s == 45 {
        return leaves_have_masks(slots, 15, &larger::masks_of_45(), counts, first, leaves);
    }
    if s == 48 {
        return leaves_have_masks(slots, 16, &larger::masks_of_48(), counts, first, leaves);
    }
    if s == 51 {
        return leaves_have_masks(slots, 17, &larger::masks_of_51(), counts, first, leaves);
    }
    leaves_one_by_one(slots, s, counts, first, leaves)
}

// Leaves of s slots one after the other, from the first slot on: their numbers of entries stand in the counts from `first` on. The loops of
// each size of the tables are compiled for that size.
pub fn leaves_are_spread(
    slots: &[u64],
    s: usize,
    counts: &[u32],
    first: usize,
    leaves: usize,
) -> bool
    requires { LeavesTestReady slots.now s counts.now first leaves }
    ensures { result ≡ leaves_test s (take leaves (drop first counts.now)) slots.now }
{
    if s == 21 {
        return leaves_have_masks(slots, 7, &table::masks_of_21(), counts, first, leaves);
    }
    if s == 24 {
        return leaves_have_masks(slots, 8, &table::masks_of_24(), counts, first, leaves);
    }
    if s == 27 {
        return leaves_have_masks(slots, 9, &table::masks_of_27(), counts, first, leaves);
    }
    if s == 30 {
        return leaves_have_masks(slots, 10, &table::masks_of_30(), counts, first, leaves);
    }
    if s == 33 {
        return leaves_have_masks(slots, 11, &table::masks_of_33(), counts, first, leaves);
    }
    other_leaves_are_spread(slots, s, counts, first, leaves)
}
