// The tallies of a sheet as its slots give them: tested, and written after a change.
#![tactic(auto)]

ghost use Rattle.std.specs.Prelude.{◌≡◌, List, ℕ, ◌*◌, length, replicate};
ghost use Rattle.base.specs.Lists.{equal_lists};
ghost use Rattle.tree_sizes.specs.Sizes.{height};
ghost use Rattle.store_order.specs.CountOrder.{count_order, number_order};
ghost use Rattle.store_tallies.specs.TalliesIn.{TalliesIn};
ghost use Rattle.call_tallies.specs.Ready.{TalliesReady, CountsReady, PartReady, StartsFrom};

use tree_counts::Part;
use tree_sizes::{Size, power};

// Makes the tallies, in the order of the counts, those that the slots give, whatever they were. They are worked out in `numbers`, by range number as
// the counts are given.
pub fn fresh_tallies(
    size: Size,
    slots: &[u64],
    counts: &[u32],
    numbers: &mut [u32],
    tallies: &mut [u32],
)
    requires ready { TalliesReady size.m slots.now (length tallies.old) }
    requires counted { CountsReady size.m slots.now counts.now }
    requires numbers { numbers.old ≡ replicate (length tallies.old) 0 }
    ensures { (words : List ℕ) → TalliesIn size.m slots.now words → length words ≡ length tallies.old
        → tallies.new ≡ count_order (height size.m) words }
{
    let leaves = power(size.height());
    store_tallies::update_tallies(size, slots, counts, leaves, 2 * leaves - 1, numbers);
    store_counts::write_counts(size, numbers, tallies);
}

// The tallies are those that the slots give. They are read into `numbers` by range number, as the counts are given.
pub fn are_tallies(
    size: Size,
    slots: &[u64],
    counts: &[u32],
    tallies: &[u32],
    numbers: &mut [u32],
) -> bool
    requires ready { TalliesReady size.m slots.now (length tallies.now) }
    requires counted { CountsReady size.m slots.now counts.now }
    requires numbers { length numbers.old ≡ length tallies.now }
    ensures { ((words : List ℕ) → TalliesIn size.m slots.now words → length words ≡ length tallies.now
        → result ≡ equal_lists tallies.now (count_order (height size.m) words))
        × (numbers.new ≡ number_order (height size.m) tallies.now) }
{
    store_counts::read_counts(size, tallies, numbers);
    store_tallies::are_tallies(size, slots, counts, numbers)
}

// Makes the numbers those from which a change that is confined to this range brings the tallies up to date: 0 where it is the whole sheet, and
// otherwise what they are.
fn start_numbers(range: usize, numbers: &mut [u32])
    ensures { StartsFrom range numbers.old numbers.new }
{
    if range == 1 {
        store_counts::zero_counts(numbers);
    }
}

// Makes the tallies, in the order of the counts, those that the slots give after a change that is confined to the part. They are worked out in
// `numbers`, by range number as the counts after the change are given: from those before it, or anew where the part is the whole sheet.
pub fn write_tallies(
    size: Size,
    part: Part,
    slots: &[u64],
    counts: &[u32],
    tallies: &mut [u32],
    numbers: &mut [u32],
)
    requires ready { TalliesReady size.m slots.now (length tallies.old) }
    requires lengths { length numbers.old ≡ length tallies.old }
    requires part { PartReady size.m part slots.now tallies.old numbers.old }
    requires counted { CountsReady size.m slots.now counts.now }
    ensures { (words : List ℕ) → TalliesIn size.m slots.now words → length words ≡ length tallies.old
        → tallies.new ≡ count_order (height size.m) words }
{
    let range = part.range;
    let first = store_part::first_leaf(size, part);
    let last = store_part::last_leaf(size, part);
    start_numbers(range, numbers);
    store_tallies::update_tallies(size, slots, counts, first, last, numbers);
    store_counts::put_numbers(size, range, first, last, numbers, tallies);
}
