// The counts of a store, read and written in their order: with `store_tree` and `store_rows` the only code that knows it.
#![tactic(auto)]

ghost use Rattle.std.specs.Prelude.{◌≡◌, ◌≢◌, ◌*◌, ◌^◌, ◌<◌, ◌≤◌, length, replicate};
ghost use Rattle.tree_sizes.specs.Sizes.{height};
ghost use Rattle.store_order.specs.Copied.{put_to, put_from, RestCopied};
ghost use Rattle.store_order.specs.CountOrder.{count_order, number_order};
ghost use Rattle.store_order.specs.Places.{places_from};
ghost use Rattle.store_rows.specs.Above.{PlacedBut};
ghost use Rattle.store_rows.specs.Row.{Row};

use tree_sizes::Size;

pub mod table; // table.rt: the places in the tree of eight levels

// Copies the counts of a tree of eight levels to the numbers of their ranges.
fn read_table(counts: &[u32], work: &mut [u32])
    requires places { 256 ≤ length counts.now }
    requires ranges { 256 ≤ length work.old }
    ensures { work.new ≡ put_from 1 (places_from 7 1 255) counts.now work.old }
{
    let places = table::places_of_eight_levels();
    for (i, place) in places.iter().enumerate() {
        let place = *place as usize;
        work[i + 1] = counts[place];
    }
}

// Copies the counts by range number of a tree of eight levels to their places.
fn write_table(counts: &mut [u32], work: &[u32])
    requires places { 256 ≤ length counts.old }
    requires ranges { 256 ≤ length work.now }
    ensures { counts.new ≡ put_to 1 (places_from 7 1 255) work.now counts.old }
{
    let places = table::places_of_eight_levels();
    for (i, place) in places.iter().enumerate() {
        let place = *place as usize;
        counts[place] = work[i + 1];
    }
}

// Copies what is no count of a range: the size parameter, and the numbers from `start` on. By `copy_from_slice` an archive for C would need memmove.
fn copy_rest(from: &[u32], start: usize, to: &mut [u32])
    requires lengths { length to.old ≡ length from.now }
    requires inside { (0 < start) × (start ≤ length from.now) }
    ensures { RestCopied start (length from.now) from.now to.new }
{
    to[0] = from[0];
    for i in start..from.len() {
        to[i] = from[i];
    }
}

// Copies the counts of a sheet of this size into a work array, by range number.
pub fn read_counts(size: Size, counts: &[u32], work: &mut [u32])
    requires lengths { length work.old ≡ length counts.now }
    requires room { 2 * 2 ^ height size.m ≤ length counts.now }
    ensures { work.new ≡ number_order (height size.m) counts.now }
{
    let levels = size.height() + 1;
    copy_rest(counts, tree_sizes::power(levels), work);
    if levels == 8 {
        read_table(counts, work);
    } else {
        store_tree::read_tree(counts, 1, work, levels, 1);
    }
}

// Copies the counts of a sheet of this size back out of a work array, by range number.
pub fn write_counts(size: Size, work: &[u32], counts: &mut [u32])
    requires lengths { length counts.old ≡ length work.now }
    requires room { 2 * 2 ^ height size.m ≤ length work.now }
    ensures { counts.new ≡ count_order (height size.m) work.now }
{
    let levels = size.height() + 1;
    copy_rest(work, tree_sizes::power(levels), counts);
    if levels == 8 {
        write_table(counts, work);
    } else {
        store_tree::write_tree(counts, 1, work, levels, 1);
    }
}

// Puts the numbers, by range number, of a sheet of this size into their places, where those of the ranges that have none of the leaves from
// `first` to `last` stand there already, unless the range is the whole sheet.
pub fn put_numbers(
    size: Size,
    range: usize,
    first: usize,
    last: usize,
    numbers: &[u32],
    counts: &mut [u32],
)
    requires most { size.m < 2 ^ 30 }
    requires lengths { length counts.old ≡ length numbers.now }
    requires room { 2 * 2 ^ height size.m ≤ length numbers.now }
    requires leaves { Row (height size.m) first last }
    requires others { range ≢ 1 → PlacedBut (height size.m) first last numbers.now counts.old }
    ensures { counts.new ≡ count_order (height size.m) numbers.now }
{
    if range == 1 {
        write_counts(size, numbers, counts);
        return;
    }
    store_rows::write_rows(size.height(), numbers, first, last, counts);
}

// Makes every count 0.
pub fn zero_counts(counts: &mut [u32])
    ensures { counts.new ≡ replicate (length counts.old) 0 }
{
    counts.fill(0);
}
