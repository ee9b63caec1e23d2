// The leaf in which the entry of a rank stands, found by the counts of the ranges.
#![tactic(auto)]

ghost use Rattle.std.specs.Prelude.{◌≡◌, ◌*◌, ◌^◌, ◌≤◌, ◌<◌, length};
ghost use Rattle.tree_sizes.specs.Sizes.{height};
ghost use Rattle.store_rank.specs.LeafOf.{start_of};

use store_layout::count_at;
use tree_sizes::Size;

// The first slot of a leaf, the rank of an entry among those from this slot on, and the range number of the leaf.
#[derive(Clone, Copy)]
pub struct Start {
    pub slot: usize,
    pub rank: usize,
    pub leaf: usize,
}

// Goes down the ranges of a sheet of this size to the leaf in which the entry of the rank stands: into the left half of a range where this
// has more entries than the rank, and into the right half where not.
pub fn start_of(size: Size, counts: &[u32], rank: usize) -> Start
    requires most { size.m < 2 ^ 32 }
    requires room { 2 * 2 ^ height size.m ≤ length counts.now }
    ensures { result ≡ start_of size.m counts.now rank }
{
    let h = size.height();
    let mut range = 1;
    let mut rest = rank;
    for _depth in 0..h {
        range = 2 * range;
        let n = count_at(counts, range);
        if n <= rest {
            rest -= n;
            range += 1;
        }
    }
    let before = range - tree_sizes::power(h);
    let slot = size.leaf_slots() * before;
    Start {
        slot: slot,
        rank: rest,
        leaf: range,
    }
}
