// The third slice of a timed sheet, written and tested by the slots.
#![tactic(auto)]

ghost use Rattle.std.specs.Prelude.{◌≡◌, ◌++◌, ◌+◌, ◌*◌, ◌^◌, ◌≤◌, ◌<◌, length, take, drop};
ghost use Rattle.base.specs.Lists.{equal_lists};
ghost use Rattle.tree_sizes.specs.Sizes.{height};
ghost use Rattle.store_balance.specs.BalanceIn.{first_from, right_firsts, balance_in};

use tree_sizes::{Size, power};

// The first entry that stands from the slot `from` on, 0 if there is none.
pub fn first_entry(slots: &[u64], from: usize) -> u64
    ensures { result ≡ first_from slots.now from }
{
    let start = from.min(slots.len());
    for slot in &slots[start..] {
        if *slot != 0 {
            return *slot;
        }
    }
    0
}

// Writes the balance entries of the ranges of one depth, whose numbers are those from `ranges` on, and which have halves of `half` slots each.
fn write_row(slots: &[u64], balance: &mut [u64], ranges: usize, half: usize)
    requires room { 2 * ranges ≤ length balance.old }
    requires small { (2 * ranges + 1) * half < 2 ^ 62 }
    ensures { balance.new
        ≡ take ranges balance.old
        ++ right_firsts slots.now half ranges
        ++ drop (2 * ranges) balance.old }
{
    for i in 0..ranges {
        balance[ranges + i] = first_entry(slots, (2 * i + 1) * half);
    }
}

// Makes the third slice the one that the slots give: every word is written.
pub fn write_balance(size: Size, slots: &[u64], balance: &mut [u64])
    requires most { size.m < 2 ^ 32 }
    requires room { 2 ^ height size.m ≤ length balance.old }
    ensures { balance.new ≡ balance_in size.m (length balance.old) slots.now }
{
    balance.fill(0);
    let leaf = size.leaf_slots();
    let mut ranges = 1;
    for levels in (0..size.height()).rev() {
        write_row(slots, balance, ranges, leaf * power(levels));
        ranges = 2 * ranges;
    }
}

// The two slices hold the same words. The differences are joined bit by bit and compared with 0 once, since in a sheet all have to be looked at.
fn same_words(a: &[u64], b: &[u64]) -> bool
    requires { length a.now ≡ length b.now }
    ensures { result ≡ equal_lists a.now b.now }
{
    let pairs = a.iter().zip(b.iter());
    let joined = pairs.fold(0, |joined, (x, y)| joined | (*x ^ *y));
    joined == 0
}

// The third slice is the one that the slots give, which is written into `work`.
pub fn is_balance(size: Size, slots: &[u64], balance: &[u64], work: &mut [u64]) -> bool
    requires most { size.m < 2 ^ 32 }
    requires room { 2 ^ height size.m ≤ length balance.now }
    requires work { length work.old ≡ length balance.now }
    ensures { result
        ≡ equal_lists balance.now (balance_in size.m (length balance.now) slots.now) }
{
    write_balance(size, slots, work);
    same_words(balance, work)
}
