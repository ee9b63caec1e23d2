// An insert or a delete that no cause before 7 refuses, written into the store once everything is drawn.
#![tactic(auto)]

ghost use Rattle.std.specs.Prelude.{◌≡◌, ◌+◌, ◌<◌, ◌^◌, length};
ghost use Rattle.call_outcomes.specs.Untallied.{store_of};
ghost use Rattle.call_change.specs.SheetChange.{entries_before, WriteReady, written};

use tree_counts::Part;
use tree_rules::Change;
use tree_sizes::Size;

// A change for which everything is drawn: the size parameter before and after it, the part that it is confined to, and the entry of an
// insert.
#[derive(Clone, Copy)]
pub struct DrawnChange {
    pub old: usize,
    pub new: usize,
    pub part: Part,
    pub change: Change,
    pub entry: u64,
}

// Writes a drawn change into the store: the part is laid out anew by the counts that the work array has by range number, and these are
// written in their order, those that the change can have altered. The entries of the part pass through the lent list.
pub fn write_change(
    slots: &mut [u64],
    counts: &mut [u32],
    work: &[u32],
    list: &mut [u64],
    drawn: DrawnChange,
)
    requires ready { WriteReady drawn (store_of slots.old counts.old) work.now }
    requires room { length (entries_before drawn slots.old) + 1 < length list.old }
    ensures { store_of slots.new counts.new
        ≡ written drawn work.now (store_of slots.old counts.old) }
{
    let old = Size { m: drawn.old };
    let new = Size { m: drawn.new };
    let part = drawn.part;
    let change = drawn.change;
    store_part::lay_part(slots, old, new, part, change, drawn.entry, work, list);
    let first = store_part::first_leaf(new, part);
    let last = store_part::last_leaf(new, part);
    store_counts::put_numbers(new, part.range, first, last, work, counts);
}

// The same by a list of its own, which has room for ROOM entries.
pub fn write_by_list<const ROOM: usize>(
    slots: &mut [u64],
    counts: &mut [u32],
    work: &[u32],
    drawn: DrawnChange,
)
    requires ready { WriteReady drawn (store_of slots.old counts.old) work.now }
    requires room { length (entries_before drawn slots.old) + 1 < ROOM }
    requires most { ROOM < 2 ^ 32 }
    ensures { store_of slots.new counts.new
        ≡ written drawn work.now (store_of slots.old counts.old) }
{
    let mut list = [0u64; ROOM];
    write_change(slots, counts, work, &mut list, drawn);
}
