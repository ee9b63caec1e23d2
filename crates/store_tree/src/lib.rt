// The counts of a tree's ranges, copied between their places in a store and a work array by range number, in either direction.
#![tactic(auto)]

ghost use Rattle.std.specs.Prelude.{◌≡◌, ◌^◌, ◌<◌, ◌≤◌, List, ℕ, length};
ghost use Rattle.store_order.specs.TreeOrder.{tree_order};
ghost use Rattle.store_order.specs.Copied.{put_to, put_from};
ghost use Rattle.store_order.specs.TreeReady.{TreeReady};
ghost use Rattle.store_order.proofs.PutLaws.{Puts, puts_to, puts_from};

// A direction of copying: what `put` does, and which of two lengths is that of the counts and which that of the work array.
trait Direction {
    ghost put: { ℕ → List ℕ → List ℕ → List ℕ → List ℕ };

    ghost counts: { ℕ → ℕ → ℕ };

    ghost work: { ℕ → ℕ → ℕ };

    // Copies the count of the tree of one level below range k, whose place is `at`.
    fn copy_one(from: &[u32], to: &mut [u32], at: usize, k: usize)
        requires { TreeReady 1 at k (counts (length from.now) (length to.old)) (work (length from.now) (length to.old)) }
        ensures copied { to.new ≡ put at (tree_order 1 k) from.now to.old }
        ensures few { (counts (length from.now) (length to.old) < 2 ^ 64) × (work (length from.now) (length to.old) < 2 ^ 64) };

    ghost puts: { (from : List ℕ) → Puts (λ at ks to. put at ks from to) };
}

// From the places to the numbers of the ranges.
struct Reading;

impl Direction for Reading {
    ghost put = { put_to };

    ghost counts = { λ from to. from };

    ghost work = { λ from to. to };

    ghost puts = { puts_to };

    fn copy_one(from: &[u32], to: &mut [u32], at: usize, k: usize) {
        to[k] = from[at];
    }
}

// From the numbers of the ranges to the places.
struct Writing;

impl Direction for Writing {
    ghost put = { put_from };

    ghost counts = { λ from to. to };

    ghost work = { λ from to. from };

    ghost puts = { puts_from };

    fn copy_one(from: &[u32], to: &mut [u32], at: usize, k: usize) {
        to[at] = from[k];
    }
}

// Copies the counts of the tree of two levels below range k, whose places are those from `at` on.
fn copy_two<D: Direction>(from: &[u32], to: &mut [u32], at: usize, k: usize)
    requires { TreeReady 2 at k (D.counts (length from.now) (length to.old)) (D.work (length from.now) (length to.old)) }
    ensures copied { to.new ≡ D.put at (tree_order 2 k) from.now to.old }
    ensures few { (D.counts (length from.now) (length to.old) < 2 ^ 64) × (D.work (length from.now) (length to.old) < 2 ^ 64) }
{
    D::copy_one(from, to, at, k);
    D::copy_one(from, to, at + 1, 2 * k);
    D::copy_one(from, to, at + 2, 2 * k + 1);
}

// The same of three levels.
fn copy_three<D: Direction>(from: &[u32], to: &mut [u32], at: usize, k: usize)
    requires { TreeReady 3 at k (D.counts (length from.now) (length to.old)) (D.work (length from.now) (length to.old)) }
    ensures copied { to.new ≡ D.put at (tree_order 3 k) from.now to.old }
    ensures few { (D.counts (length from.now) (length to.old) < 2 ^ 64) × (D.work (length from.now) (length to.old) < 2 ^ 64) }
{
    D::copy_one(from, to, at, k);
    copy_two::<D>(from, to, at + 1, 2 * k);
    copy_two::<D>(from, to, at + 4, 2 * k + 1);
}

// The same of four levels.
fn copy_four<D: Direction>(from: &[u32], to: &mut [u32], at: usize, k: usize)
    requires { TreeReady 4 at k (D.counts (length from.now) (length to.old)) (D.work (length from.now) (length to.old)) }
    ensures copied { to.new ≡ D.put at (tree_order 4 k) from.now to.old }
    ensures few { (D.counts (length from.now) (length to.old) < 2 ^ 64) × (D.work (length from.now) (length to.old) < 2 ^ 64) }
{
    copy_two::<D>(from, to, at, k);
    copy_two::<D>(from, to, at + 3, 4 * k);
    copy_two::<D>(from, to, at + 6, 4 * k + 1);
    copy_two::<D>(from, to, at + 9, 4 * k + 2);
    copy_two::<D>(from, to, at + 12, 4 * k + 3);
}

// The same of up to four levels.
fn copy_small<D: Direction>(from: &[u32], to: &mut [u32], at: usize, levels: usize, k: usize)
    requires tree { TreeReady levels at k (D.counts (length from.now) (length to.old)) (D.work (length from.now) (length to.old)) }
    requires small { levels ≤ 4 }
    ensures copied { to.new ≡ D.put at (tree_order levels k) from.now to.old }
    ensures few { (D.counts (length from.now) (length to.old) < 2 ^ 64) × (D.work (length from.now) (length to.old) < 2 ^ 64) }
{
    match levels {
        4 => copy_four::<D>(from, to, at, k),
        3 => copy_three::<D>(from, to, at, k),
        2 => copy_two::<D>(from, to, at, k),
        _ => D::copy_one(from, to, at, k),
    }
}

// The same of any number of levels: the top half of them, rounded down, then the subtrees below it from left to right. Small subtrees, which are
// all of those of trees of up to eight levels, need no call of itself.
fn copy_tree<D: Direction>(from: &[u32], to: &mut [u32], at: usize, levels: usize, k: usize)
    requires { TreeReady levels at k (D.counts (length from.now) (length to.old)) (D.work (length from.now) (length to.old)) }
    ensures copied { to.new ≡ D.put at (tree_order levels k) from.now to.old }
    ensures few { (D.counts (length from.now) (length to.old) < 2 ^ 64) × (D.work (length from.now) (length to.old) < 2 ^ 64) }
{
    if levels <= 4 {
        copy_small::<D>(from, to, at, levels, k);
        return;
    }
    let top = levels / 2;
    let lower = levels - top;
    copy_tree::<D>(from, to, at, top, k);
    let subtrees = tree_sizes::power(top);
    let ranges = tree_sizes::power(lower) - 1;
    let mut place = at + (subtrees - 1);
    for j in 0..subtrees {
        let range = subtrees * k + j;
        if lower <= 4 {
            copy_small::<D>(from, to, place, lower, range);
        } else {
            copy_tree::<D>(from, to, place, lower, range);
        }
        place += ranges;
    }
}

// Copies the counts of the tree of so many levels below range k, which stand from `at` on, to the numbers of their ranges.
pub fn read_tree(counts: &[u32], at: usize, work: &mut [u32], levels: usize, k: usize)
    requires { TreeReady levels at k (length counts.now) (length work.old) }
    ensures { work.new ≡ put_to at (tree_order levels k) counts.now work.old }
{
    copy_tree::<Reading>(counts, work, at, levels, k);
}

// Copies them from the numbers of their ranges to their places from `at` on.
pub fn write_tree(counts: &mut [u32], at: usize, work: &[u32], levels: usize, k: usize)
    requires { TreeReady levels at k (length counts.old) (length work.now) }
    ensures { counts.new ≡ put_from at (tree_order levels k) work.now counts.old }
{
    copy_tree::<Writing>(work, counts, at, levels, k);
}
