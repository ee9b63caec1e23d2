// The third slice of a timed sheet brought up to date after a change of one part: what is written goes by the part and not by the sheet.
#![tactic(auto)]

ghost use Rattle.std.specs.Prelude.{◌≡◌, ◌+◌, ◌*◌, ◌^◌, ◌≤◌, ◌<◌, length};
ghost use Rattle.tree_sizes.specs.Sizes.{height};
ghost use Rattle.store_rows.specs.Row.{Row};
ghost use Rattle.store_balance.specs.BalanceIn.{balance_in};
ghost use Rattle.store_balance_part.specs.Update.{Begins, BalanceBut, BalanceReady};

use store_balance::{first_entry, write_balance};
use store_part::{first_leaf, last_leaf};
use tree_counts::Part;
use tree_sizes::{Size, power};

// The range whose right half begins with this leaf, by their range numbers: for the first leaf of a sheet 0, the number of no range.
fn split_range(leaf: usize) -> usize
    requires some { 0 < leaf }
    ensures { Begins (2 * result + 1) leaf }
{
    let mut k = leaf;
    while k % 2 == 0 {
        k = k / 2;
    }
    k / 2
}

// Makes the third slice the one that the slots give after a change of the leaves from `first` to `last`: of each of them the word of the range
// whose right half begins with it is written. The other words are right already.
fn update_balance(size: Size, slots: &[u64], first: usize, last: usize, balance: &mut [u64])
    requires most { size.m < 2 ^ 32 }
    requires room { 2 ^ height size.m ≤ length balance.old }
    requires leaves { Row (height size.m) first last }
    requires kept { BalanceBut size.m slots.now first (last + 1) balance.old }
    ensures { balance.new ≡ balance_in size.m (length balance.old) slots.now }
{
    let s = size.leaf_slots();
    let h = size.height();
    let leaves = power(h);
    for leaf in first.max(leaves + 1)..last + 1 {
        let k = split_range(leaf);
        balance[k] = first_entry(slots, s * (leaf - leaves));
    }
}

// Makes the third slice the one that the slots give after a change that is confined to the part: every word where it is the whole sheet, and
// otherwise those of its leaves.
pub fn write_part(size: Size, part: Part, slots: &[u64], balance: &mut [u64])
    requires { BalanceReady size.m part slots.now balance.old }
    ensures { balance.new ≡ balance_in size.m (length balance.old) slots.now }
{
    let range = part.range;
    if range == 1 {
        write_balance(size, slots, balance);
        return;
    }
    let first = first_leaf(size, part);
    let last = last_leaf(size, part);
    update_balance(size, slots, first, last, balance);
}
