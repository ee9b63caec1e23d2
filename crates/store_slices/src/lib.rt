// Single steps on slices: an entry put in or taken out, slots zeroed, entries read out.
#![tactic(auto)]

ghost use Rattle.std.specs.Prelude.{◌≡◌, ◌∷◌, ◌++◌, ◌+◌, ◌-◌, ◌<◌, ◌≤◌, length, take, drop, replicate};
ghost use Rattle.store_layout.specs.Leaf.{nonzero};
ghost use Rattle.tree_rules.specs.Rules.{InReach};
ghost use Rattle.store_slices.specs.Changed.{Changed};
ghost use Rattle.store_slices.specs.Reading.{EntrySlot};

use tree_rules::Change;

// Puts the entry e in at index i among the first n entries: those from i on move one place to the right, the last of them to index n.
fn put_in(list: &mut [u64], n: usize, i: usize, e: u64)
    requires within { i ≤ n }
    requires room { n < length list.old }
    ensures { list.new
        ≡ take i list.old ++ (e ∷ take (n - i) (drop i list.old)) ++ drop (n + 1) list.old }
{
    list.copy_within(i..n, i + 1);
    list[i] = e;
}

// Takes the entry at index i out of the first n entries: those after it move one place to the left.
fn take_out(list: &mut [u64], n: usize, i: usize)
    requires within { i < n }
    requires room { n ≤ length list.old }
    ensures { list.new
        ≡ take i list.old ++ take (n - (i + 1)) (drop (i + 1) list.old) ++ drop (n - 1) list.old }
{
    list.copy_within(i + 1..n, i);
}

// Carries the change out on the first n entries of the list: the entry e comes in, or the entry at the rank goes out.
pub fn change_list(list: &mut [u64], n: usize, change: Change, e: u64)
    requires reach { InReach change n }
    requires room { n < length list.old }
    ensures { Changed change e n list.old list.new }
{
    match change {
        Change::Insert(i) => put_in(list, n, i, e),
        Change::Delete(i) => take_out(list, n, i),
    }
}

// Writes 0 into the slots from the index `from` up to, not including, the index `to`.
pub fn zero_slots(slots: &mut [u64], from: usize, to: usize)
    requires order { from ≤ to }
    requires room { to ≤ length slots.old }
    ensures { slots.new
        ≡ take from slots.old ++ replicate (to - from) 0 ++ drop to slots.old }
{
    slots[from..to].fill(0);
}

// The slot behind the first `first` entries of those from `start` on: the others stand from it on.
pub fn skip_entries(slots: &[u64], start: usize, first: usize) -> usize
    requires entries { first ≤ length (nonzero (drop start slots.now)) }
    ensures { (start ≤ result) × (drop first (nonzero (drop start slots.now)) ≡ nonzero (drop result slots.now)) }
{
    let mut seen = 0;
    let mut at = start;
    while seen < first {
        let x = slots[at];
        at += 1;
        if x != 0 {
            seen += 1;
        }
    }
    at
}

// The slot of the entry number `number` (from 0) of those from `start` on: the empty ones before it are passed too.
pub fn entry_slot(slots: &[u64], start: usize, number: usize) -> usize
    requires entries { number < length (nonzero (drop start slots.now)) }
    ensures { EntrySlot slots.now start number result }
{
    let mut at = skip_entries(slots, start, number);
    while slots[at] == 0 {
        at += 1;
    }
    at
}

// Copies `count` of the entries that stand in the slots from `start` on, from the entry number `first` of these (from 0) on, to the front of
// the output. Every slot is copied, and what an empty one leaves in the output is overwritten by the next: so the loop has no branch on a
// slot's contents.
pub fn read_from(slots: &[u64], start: usize, first: usize, count: usize, output: &mut [u64])
    requires entries { first + count ≤ length (nonzero (drop start slots.now)) }
    requires room { count ≤ length output.old }
    ensures { output.new
        ≡ take count (drop first (nonzero (drop start slots.now))) ++ drop count output.old }
{
    let mut at = skip_entries(slots, start, first);
    let mut seen = 0;
    while seen < count {
        let x = slots[at];
        at += 1;
        output[seen] = x;
        if x != 0 {
            seen += 1;
        }
    }
}
