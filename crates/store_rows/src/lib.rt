// Numbers by range number, written to their places in the order of a store: only those of the ranges that have one of given leaves, so that what a
// change writes goes by its part and not by the sheet.
#![tactic(auto)]

ghost use Rattle.std.specs.Prelude.{◌≡◌, ◌+◌, ◌*◌, ◌^◌, ◌≤◌, ◌<◌, length};
ghost use Rattle.store_order.specs.CountOrder.{count_place, count_order};
ghost use Rattle.store_rows.specs.Above.{PlacedBut};
ghost use Rattle.store_rows.specs.Row.{Row, RowWritten};

use tree_sizes::power;

// The place of range k, which stands `depth` levels below the root, in the order of a tree whose leaves stand h levels below its root. At each
// turn a tree of so many levels has its places from `at` on, and k stands `below` levels below its root: in the top half of the levels, rounded
// down, or in one of the subtrees below it.
pub fn place_of(h: usize, depth: usize, k: usize) -> usize
    requires most { h < 31 }
    requires inside { depth ≤ h }
    requires row { (2 ^ depth ≤ k) × (k < 2 * 2 ^ depth) }
    ensures { result ≡ count_place h k }
{
    let mut levels = h + 1;
    let mut below = depth;
    let mut at: usize = 1;
    while 1 < levels {
        let top = levels / 2;
        let lower = levels - top;
        if below < top {
            levels = top;
        } else {
            below -= top;
            let subtrees = power(top);
            let ranges = power(lower) - 1;
            let subtree = (k >> below) & (subtrees - 1);
            at = at + (subtrees - 1) + subtree * ranges;
            levels = lower;
        }
    }
    at
}

// Writes the numbers of the ranges from `from` to `to`, which stand `depth` levels below the root, to their places.
fn write_row(h: usize, depth: usize, numbers: &[u32], from: usize, to: usize, counts: &mut [u32])
    requires most { h < 31 }
    requires inside { depth ≤ h }
    requires row { Row depth from to }
    requires ranges { 2 * 2 ^ h ≤ length numbers.now }
    requires places { 2 * 2 ^ h ≤ length counts.old }
    ensures { RowWritten h from (to + 1) numbers.now counts.old counts.new }
{
    for k in from..to + 1 {
        let place = place_of(h, depth, k);
        counts[place] = numbers[k];
    }
}

// Row by row upwards, writes the numbers of the leaves from `first` to `last` and of the ranges above them to their places. The numbers of the
// other ranges stand there already.
pub fn write_rows(h: usize, numbers: &[u32], first: usize, last: usize, counts: &mut [u32])
    requires most { h < 31 }
    requires leaves { Row h first last }
    requires room { 2 * 2 ^ h ≤ length counts.old }
    requires others { PlacedBut h first last numbers.now counts.old }
    ensures { counts.new ≡ count_order h numbers.now }
{
    let mut from = first;
    let mut to = last;
    for depth in (0..h + 1).rev() {
        write_row(h, depth, numbers, from, to, counts);
        from = from / 2;
        to = to / 2;
    }
}
