// The tallies of a sheet: for each range the number of its scoring entries.
#![tactic(auto)]

ghost use Rattle.std.specs.Prelude.{◌≡◌, true, ◌↔◌, ◌+◌, ◌*◌, ◌^◌, ◌≤◌, ◌<◌, length};
ghost use Rattle.tree_sizes.specs.Sizes as sizes;
ghost use Rattle.tree_sizes.specs.Sizes.{height};
ghost use Rattle.store_tallies.specs.TalliesIn.{tally_at, LeavesCounted, TalliesBut, TalliesIn};
ghost use Rattle.store_sums.specs.Updating.{Agrees, Filled};
ghost use Rattle.store_tallies.specs.Path.{path_tally};

use store_layout::count_at;
use store_scoring::tally_of;
use tree_sizes::{Size, power};

// Counts the scoring entries of the leaves with the range numbers from `first` up to, not including, `end`, whose counts are given.
fn count_leaves(
    size: Size,
    slots: &[u64],
    counts: &[u32],
    first: usize,
    end: usize,
    tallies: &mut [u32],
)
    requires most { size.m < 2 ^ 30 }
    requires slots { sizes.slots size.m ≤ length slots.now }
    requires room { 2 * 2 ^ height size.m ≤ length tallies.old }
    requires leaves { (2 ^ height size.m ≤ first) × (first ≤ end) × (end ≤ 2 * 2 ^ height size.m) }
    requires numbers { end ≤ length counts.now }
    requires counted { LeavesCounted size.m slots.now first end counts.now }
    ensures { Filled (tally_at size.m slots.now 0) first end tallies.old tallies.new }
{
    let s = size.leaf_slots();
    let leaves = power(size.height());
    for k in first..end {
        tallies[k] = tally_of(slots, s * (k - leaves), s, count_at(counts, k)) as u32;
    }
}

// Brings the tallies up to date where they may be wrong: at the ranges that have one of the leaves with the range numbers from `first` to
// `last`, whose counts are given. The scoring entries of the leaves are counted, and then the ranges above them get the sums over their halves.
pub fn update_tallies(
    size: Size,
    slots: &[u64],
    counts: &[u32],
    first: usize,
    last: usize,
    tallies: &mut [u32],
)
    requires most { size.m < 2 ^ 30 }
    requires slots { sizes.slots size.m ≤ length slots.now }
    requires room { 2 * 2 ^ height size.m ≤ length tallies.old }
    requires leaves { (2 ^ height size.m ≤ first) × (first ≤ last) × (last < 2 * 2 ^ height size.m) }
    requires numbers { last < length counts.now }
    requires counted { LeavesCounted size.m slots.now first (last + 1) counts.now }
    requires others { TalliesBut size.m slots.now first (last + 1) tallies.old }
    ensures { TalliesIn size.m slots.now tallies.new }
{
    count_leaves(size, slots, counts, first, last + 1, tallies);
    store_sums::add_rows(tallies, first, last);
}

// The numbers of the leaves, whose counts are given, are their numbers of scoring entries.
fn leaves_have_tallies(size: Size, slots: &[u64], counts: &[u32], numbers: &[u32]) -> bool
    requires most { size.m < 2 ^ 30 }
    requires slots { sizes.slots size.m ≤ length slots.now }
    requires room { 2 * 2 ^ height size.m ≤ length numbers.now }
    requires counts { 2 * 2 ^ height size.m ≤ length counts.now }
    requires counted { LeavesCounted size.m slots.now (2 ^ height size.m) (2 * 2 ^ height size.m) counts.now }
    ensures { (result ≡ true) ↔ Agrees (tally_at size.m slots.now 0) (2 ^ height size.m) (2 * 2 ^ height size.m) numbers.now }
{
    let s = size.leaf_slots();
    let leaves = power(size.height());
    for k in leaves..2 * leaves {
        if count_at(numbers, k) != tally_of(slots, s * (k - leaves), s, count_at(counts, k)) {
            return false;
        }
    }
    true
}

// The numbers are the tallies by range number; those of the leaves go by their slots, the others by their halves.
pub fn are_tallies(size: Size, slots: &[u64], counts: &[u32], numbers: &[u32]) -> bool
    requires most { size.m < 2 ^ 30 }
    requires slots { sizes.slots size.m ≤ length slots.now }
    requires room { 2 * 2 ^ height size.m ≤ length numbers.now }
    requires counts { 2 * 2 ^ height size.m ≤ length counts.now }
    requires counted { LeavesCounted size.m slots.now (2 ^ height size.m) (2 * 2 ^ height size.m) counts.now }
    ensures { (result ≡ true) ↔ TalliesIn size.m slots.now numbers.now }
{
    if count_at(numbers, 0) != 0 {
        return false;
    }
    if !leaves_have_tallies(size, slots, counts, numbers) {
        return false;
    }
    let leaves = power(size.height());
    if !store_sums::halves_add_up(numbers, leaves) {
        return false;
    }
    store_zeros::counts_are_zero(numbers, 2 * leaves)
}

// The number of scoring entries before the leaf with this range number: on the way down to it, the tallies of the left halves of which the
// right half is taken.
pub fn tally_before(size: Size, tallies: &[u32], leaf: usize) -> usize
    requires most { size.m < 2 ^ 32 }
    requires room { 2 * 2 ^ height size.m ≤ length tallies.now }
    ensures { result ≡ path_tally tallies.now leaf (height size.m) 1 }
{
    let mut k = 1;
    let mut sum = 0;
    for levels in (0..size.height()).rev() {
        k = 2 * k;
        if (k + 1) * power(levels) <= leaf {
            sum += tallies[k] as usize;
            k += 1;
        }
    }
    sum
}
