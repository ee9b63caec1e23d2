// A drawn change written into slots and counts of a sheet of any capacity, by lists for up to 1,024 entries; and what a change leaves.
#![tactic(auto)]

ghost use Rattle.std.specs.Prelude.{◌≡◌, ◌≤◌, length, get_or};
ghost use Rattle.call_outcomes.specs.Untallied.{store_of};
ghost use Rattle.call_change.specs.SheetChange.{entries_before, WriteReady, written};

use call_change::DrawnChange;
use tree_counts::Part;

// A change that is made: it leaves so many entries after so many words read, the size parameter m, and all slots outside of the part.
#[derive(Clone, Copy)]
pub struct Made {
    pub n: usize,
    pub words: usize,
    pub m: usize,
    pub part: Part,
}

// Writes a drawn change whose part has at most 1,024 entries before it. The list of 1,026 entries takes more time to make than a leaf to lay out,
// so it is made only where the part has more than 128 entries after it, for which 131 are not room enough.
pub fn write_small(slots: &mut [u64], counts: &mut [u32], work: &[u32], drawn: DrawnChange)
    requires ready { WriteReady drawn (store_of slots.old counts.old) work.now }
    requires most { length (entries_before drawn slots.old) ≤ 1024 }
    ensures { store_of slots.new counts.new
        ≡ written drawn work.now (store_of slots.old counts.old) }
{
    if store_layout::count_at(work, drawn.part.range) <= 128 {
        call_change::write_by_list::<131>(slots, counts, work, drawn);
    } else {
        call_change::write_by_list::<1026>(slots, counts, work, drawn);
    }
}
