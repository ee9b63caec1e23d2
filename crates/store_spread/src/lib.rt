// Leaves laid out from left to right by tables of which entry stands in which slot, for leaves of the sizes that the clubs' sheets have; others
// by the rule.
#![tactic(auto)]

ghost use Rattle.std.specs.Prelude.{◌≡◌, ◌++◌, ◌+◌, ◌*◌, ◌<◌, length, take, drop};
ghost use Rattle.base.specs.Lists.{total};
ghost use Rattle.store_layout.specs.Leaf.{spread};
ghost use Rattle.store_layout.specs.Layout.{lay_leaves};
ghost use Rattle.store_layout.specs.Pass.{written_to};
ghost use Rattle.store_layout.specs.Ready.{LeavesReady};
ghost use Rattle.store_spread.specs.SlotEntries.{entry_table};
ghost use Rattle.store_spread.specs.Ready.{TableReady};

use crate::table::{entries_of_21, entries_of_24, entries_of_27, entries_of_30, entries_of_33};
use store_layout::Leaf;

pub mod table; // table.rt: which entry stands in which slot

// Writes slot i of a leaf, in front of which the pass is: the entry that the table has for it, or the 0 behind the leaf's entries. After the
// write the leaf's slots up to it hold what the rule gives, and its later ones what they held before.
fn write_slot(slots: &mut [u64], leaf: Leaf, list: &[u64], entries: &[u8], row: usize, i: usize)
    requires ready { TableReady leaf list.now entries.now row slots.old }
    requires written { slots.old ≡ written_to leaf list.now i slots.old }
    requires inside { i < leaf.slots }
    ensures { slots.new ≡ written_to leaf list.now (i + 1) slots.old }
{
    let k = entries[row + i] as usize;
    slots[leaf.from + i] = list[leaf.at + k];
}

// Writes the slots of a leaf by the table, whose row starts at `row`: each slot once, from left to right.
fn spread_leaf(slots: &mut [u64], leaf: Leaf, list: &[u64], entries: &[u8], row: usize)
    requires { TableReady leaf list.now entries.now row slots.old }
    ensures { slots.new
        ≡ take leaf.from slots.old
        ++ spread leaf.slots (take leaf.entries (drop leaf.at list.now))
        ++ drop (leaf.from + leaf.slots) slots.old }
{
    for i in 0..leaf.slots {
        write_slot(slots, leaf, list, entries, row, i);
    }
}

// Lays leaves of S slots out one after the other by their table. While a leaf is written, a 0 stands in the list behind its entries.
fn lay_by_table<const S: usize>(
    slots: &mut [u64],
    from: usize,
    entries: &[u8],
    counts: &[u32],
    first: usize,
    leaves: usize,
    list: &mut [u64],
)
    requires ready { LeavesReady slots.old from S counts.now first leaves list.old }
    requires room { total (take leaves (drop first counts.now)) < length list.old }
    requires table { entries.now ≡ entry_table S }
    ensures { slots.new
        ≡ take from slots.old
        ++ lay_leaves S (take leaves (drop first counts.now)) list.old
        ++ drop (from + S * leaves) slots.old }
{
    let mut to = from;
    let mut at: usize = 0;
    for count in &counts[first..first + leaves] {
        let n = *count as usize;
        let leaf = Leaf {
            from: to,
            slots: S,
            at: at,
            entries: n,
        };
        let end = at + n;
        let behind = list[end];
        list[end] = 0;
        spread_leaf(slots, leaf, list, entries, n * S);
        list[end] = behind;
        to += S;
        at = end;
    }
}

// Lays leaves of s slots out one after the other, from the slot `from` on: their numbers of entries stand in the counts from `first` on,
// and the entries in the list from its start on. The loops of each size of the tables are compiled for that size.
pub fn lay_leaves(
    slots: &mut [u64],
    from: usize,
    s: usize,
    counts: &[u32],
    first: usize,
    leaves: usize,
    list: &mut [u64],
)
    requires ready { LeavesReady slots.old from s counts.now first leaves list.old }
    requires room { total (take leaves (drop first counts.now)) < length list.old }
    ensures { slots.new
        ≡ take from slots.old
        ++ lay_leaves s (take leaves (drop first counts.now)) list.old
        ++ drop (from + s * leaves) slots.old }
{
    match s {
        21 => lay_by_table::<21>(slots, from, &entries_of_21(), counts, first, leaves, list),
        24 => lay_by_table::<24>(slots, from, &entries_of_24(), counts, first, leaves, list),
        27 => lay_by_table::<27>(slots, from, &entries_of_27(), counts, first, leaves, list),
        30 => lay_by_table::<30>(slots, from, &entries_of_30(), counts, first, leaves, list),
        33 => lay_by_table::<33>(slots, from, &entries_of_33(), counts, first, leaves, list),
        _ => store_layout::lay_leaves(slots, from, s, counts, first, leaves, list),
    }
}
