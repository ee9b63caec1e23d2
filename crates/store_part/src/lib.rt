// The part of a sheet that a change is confined to, laid out anew.
#![tactic(auto)]

ghost use Rattle.std.specs.Prelude.{◌≡◌, ◌+◌, ◌*◌, ◌^◌, ◌<◌, ◌≤◌, length};
ghost use Rattle.tree_sizes.specs.Sizes.{height};
ghost use Rattle.store_part.specs.LayPart.{part_entries, PartReady, EntriesReady, lay_entries, lay_part, LayReady};
ghost use Rattle.store_part.specs.Plan.{part_from, part_length, first_leaf, last_leaf};
ghost use Rattle.store_part.specs.Region.{leaves_of, leaves_before};

use tree_counts::Part;
use tree_rules::Change;
use tree_sizes::Size;

// How many leaves a range at this depth has.
fn region_leaves(size: Size, depth: usize) -> usize
    requires deepest { depth ≤ height size.m }
    requires most { size.m < 2 ^ 32 }
    ensures { result ≡ leaves_of size.m depth }
{
    let h = size.height();
    tree_sizes::power(h - depth)
}

// How many leaves stand before the first leaf of the range with this number at this depth.
fn region_before(size: Size, range: usize, depth: usize) -> usize
    requires deepest { depth ≤ height size.m }
    requires most { size.m < 2 ^ 32 }
    requires first { 2 ^ depth ≤ range }
    requires last { range < 2 * 2 ^ depth }
    ensures { result ≡ leaves_before size.m range depth }
{
    let number = range - tree_sizes::power(depth);
    number * region_leaves(size, depth)
}

// The first slot of the part in a sheet of this size.
fn part_from(size: Size, part: Part) -> usize
    requires { PartReady size.m part }
    ensures { result ≡ part_from size.m part }
{
    let range = part.range;
    let depth = part.depth;
    size.leaf_slots() * region_before(size, range, depth)
}

// The number of slots of the part in a sheet of this size.
fn part_length(size: Size, part: Part) -> usize
    requires { PartReady size.m part }
    ensures { result ≡ part_length size.m part }
{
    let depth = part.depth;
    size.leaf_slots() * region_leaves(size, depth)
}

// The range number of the first leaf of the part in a sheet of this size.
pub fn first_leaf(size: Size, part: Part) -> usize
    requires { PartReady size.m part }
    ensures { result ≡ first_leaf size.m part }
{
    let range = part.range;
    let depth = part.depth;
    range * region_leaves(size, depth)
}

// The range number of its last leaf.
pub fn last_leaf(size: Size, part: Part) -> usize
    requires { PartReady size.m part }
    ensures { result ≡ last_leaf size.m part }
{
    let depth = part.depth;
    first_leaf(size, part) + (region_leaves(size, depth) - 1)
}

// Lays the leaves of the part out from the list, by the counts, in a sheet of this size.
fn lay_entries(slots: &mut [u64], size: Size, part: Part, counts: &[u32], list: &mut [u64])
    requires { EntriesReady size.m part counts.now list.old slots.old }
    ensures { slots.new ≡ lay_entries size.m part counts.now list.old slots.old }
{
    let depth = part.depth;
    let leaves = region_leaves(size, depth);
    let first = first_leaf(size, part);
    let from = part_from(size, part);
    store_spread::lay_leaves(slots, from, size.leaf_slots(), counts, first, leaves, list);
}

// Lays out anew the part of a sheet that a change is confined to: its entries are gathered into the list and changed there, the slots that
// it no longer needs are zeroed, and its leaves are laid out by the new counts.
pub fn lay_part(
    slots: &mut [u64],
    old: Size,
    new: Size,
    part: Part,
    change: Change,
    e: u64,
    counts: &[u32],
    list: &mut [u64],
)
    requires ready { LayReady old.m new.m part change counts.now slots.old }
    requires room { length (part_entries old.m part slots.old) + 1 < length list.old }
    ensures { slots.new ≡ lay_part old.m new.m part change e counts.now slots.old }
{
    let rank = part.rank;
    let old_from = part_from(old, part);
    let old_length = part_length(old, part);
    let n = store_layout::gather(slots, old_from, old_length, list);
    let here = change.at_rank(rank);
    store_slices::change_list(list, n, here, e);
    let end = part_from(new, part) + part_length(new, part);
    let old_end = old_from + old_length;
    let last = end.max(old_end);
    store_slices::zero_slots(slots, end, last);
    lay_entries(slots, new, part, counts, list);
}
