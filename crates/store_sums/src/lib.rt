// Numbers of the ranges of a sheet that add up from the leaves: the rows above the leaves added and tested; and the counts that the slots give.
#![tactic(auto)]

ghost use Rattle.std.specs.Prelude.{◌≡◌, true, ◌↔◌, [], ◌∷◌, ℕ, ◌+◌, ◌*◌, ◌^◌, ◌≤◌, ◌<◌, length, take, drop, replicate};
ghost use Rattle.tree_sizes.specs.Sizes as sizes;
ghost use Rattle.tree_sizes.specs.Sizes.{height};
ghost use Rattle.store_layout.specs.Leaf.{nonzero};
ghost use Rattle.store_sums.specs.Numbers.{number_at, NumbersIn};
ghost use Rattle.store_sums.specs.Updating.{Agrees, Filled, halves_sum, RowsReady, RowsAdded};

use tree_sizes::{Size, power};

// Writes at each range number from `first` up to, not including, `end` the sum over the halves.
fn add_halves(numbers: &mut [u32], first: usize, end: usize)
    requires order { first ≤ end }
    requires room { 2 * end ≤ length numbers.old }
    requires small { (k : ℕ) → first ≤ k → k < end → halves_sum numbers.old k < 2 ^ 32 }
    ensures { Filled (halves_sum numbers.old) first end numbers.old numbers.new }
{
    for k in first..end {
        numbers[k] = numbers[2 * k] + numbers[2 * k + 1];
    }
}

// Row by row upwards, gives the ranges above the leaves with the range numbers from `first` to `last` the sums over their halves.
pub fn add_rows(numbers: &mut [u32], first: usize, last: usize)
    requires { RowsReady first last numbers.old }
    ensures { RowsAdded first last numbers.old numbers.new }
{
    let mut from = first;
    let mut to = last;
    while 1 < from {
        from = from / 2;
        to = to / 2;
        add_halves(numbers, from, to + 1);
    }
}

// The numbers of the ranges from 1 up to, not including, `end` are the sums over their halves.
pub fn halves_add_up(numbers: &[u32], end: usize) -> bool
    requires { 2 * end ≤ length numbers.now }
    ensures { (result ≡ true) ↔ Agrees (halves_sum numbers.now) 1 end numbers.now }
{
    for k in 1..end {
        let left = numbers[2 * k] as usize;
        let right = numbers[2 * k + 1] as usize;
        if numbers[k] as usize != left + right {
            return false;
        }
    }
    true
}

// The number of entries in one slot: 1 or 0.
fn entry_in(slot: u64) -> usize
    ensures { result ≡ length (nonzero (slot ∷ [])) }
{
    if slot == 0 {
        return 0;
    }
    1
}

// The number of entries in the `len` slots from `from` on.
pub fn entries_in(slots: &[u64], from: usize, len: usize) -> usize
    requires room { from + len ≤ length slots.now }
    ensures { result ≡ length (nonzero (take len (drop from slots.now))) }
{
    let mut entries: usize = 0;
    for slot in &slots[from..from + len] {
        entries += entry_in(*slot);
    }
    entries
}

// Counts the entries of the leaves of a sheet of this size.
fn count_leaves(size: Size, slots: &[u64], counts: &mut [u32])
    requires most { size.m < 2 ^ 30 }
    requires slots { sizes.slots size.m ≤ length slots.now }
    requires room { 2 * 2 ^ height size.m ≤ length counts.old }
    ensures { Filled (number_at length size.m slots.now 0) (2 ^ height size.m) (2 * 2 ^ height size.m) counts.old counts.new }
{
    let s = size.leaf_slots();
    let leaves = power(size.height());
    for k in leaves..2 * leaves {
        counts[k] = entries_in(slots, s * (k - leaves), s) as u32;
    }
}

// Makes the counts, which are 0, those that the slots give to a sheet of this size, by range number: the size parameter, and for each range
// the number of entries in its slots.
pub fn count_entries(size: Size, slots: &[u64], counts: &mut [u32])
    requires most { size.m < 2 ^ 30 }
    requires slots { sizes.slots size.m ≤ length slots.now }
    requires room { 2 * 2 ^ height size.m ≤ length counts.old }
    requires zeros { counts.old ≡ replicate (length counts.old) 0 }
    ensures { NumbersIn length size.m size.m slots.now counts.new
        × (length counts.new ≡ length counts.old) }
{
    counts[0] = size.m as u32;
    count_leaves(size, slots, counts);
    let leaves = power(size.height());
    add_rows(counts, leaves, 2 * leaves - 1);
}
