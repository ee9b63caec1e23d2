// Every sheet of a list, laid out by the number of its shape.
#![tactic(auto)]

ghost use Rattle.std.specs.Prelude.{◌≡◌, length, take, replicate};
ghost use Rattle.tree_counts.specs.Counts.{shape_counts};
ghost use Rattle.tree_shapes.specs.Shapes.{shape_at};
ghost use Rattle.store_layout.specs.Layout.{lay_slots};
ghost use Rattle.store_shapes.specs.Ready.{LayReady};

use tree_sizes::Size;

// Lays out, in slots that are zero, the sheet that the first n entries of the list have with shape k of this size parameter; the counts by range
// number.
pub fn lay_shape(
    size: Size,
    n: usize,
    k: usize,
    list: &mut [u64],
    slots: &mut [u64],
    counts: &mut [u32],
)
    requires ready { LayReady size.m n k (length counts.old) (length slots.old) (length list.old) }
    requires zeros { slots.old ≡ replicate (length slots.old) 0 }
    ensures slots { slots.new ≡ lay_slots (length slots.old) (take n list.old) (shape_at n size.m k) }
    ensures counts { counts.new ≡ shape_counts (length counts.old) n (shape_at n size.m k) }
{
    tree_shapes::put_shape(size, n, k, counts);
    let leaves = tree_sizes::power(size.height());
    store_spread::lay_leaves(slots, 0, size.leaf_slots(), counts, leaves, leaves, list);
}
