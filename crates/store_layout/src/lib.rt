// The layout of a sheet in its store: leaves laid out and read back.
#![tactic(auto)]

ghost use Rattle.std.specs.Prelude.{◌≡◌, ◌++◌, ◌+◌, ◌*◌, ◌^◌, ◌<◌, length, get_or, take, drop};
ghost use Rattle.store_layout.specs.Leaf.{spread, nonzero};
ghost use Rattle.store_layout.specs.Quotient.{divided, added, position_of};
ghost use Rattle.store_layout.specs.Layout.{lay_leaves};
ghost use Rattle.store_layout.specs.Pass.{written_to, InFront};
ghost use Rattle.store_layout.specs.Ready.{LeafReady, LeavesReady, GatherReady, Gathered};

// What a store has room for.
#[derive(Clone, Copy)]
pub struct Capacity {
    pub entries: usize,
    pub slots: usize,
    pub counts: usize,
}

// A quotient, rounded down, and its remainder.
#[derive(Clone, Copy)]
pub struct Quotient {
    pub whole: usize,
    pub rest: usize,
}

impl Quotient {
    // The sum with another quotient by the same n.
    pub fn plus(self, other: Quotient, n: usize) -> Quotient
        requires wholes { self.whole + other.whole < 2 ^ 62 }
        requires rests { self.rest + other.rest < 2 ^ 62 }
        ensures { result ≡ added n self other }
    {
        let whole = self.whole + other.whole;
        let rest = self.rest + other.rest;
        if rest < n {
            return Quotient {
                whole: whole,
                rest: rest,
            };
        }
        Quotient {
            whole: whole + 1,
            rest: rest - n,
        }
    }
}

// x divided by n; by 0 it is 0, and everything remains.
fn divide(x: usize, n: usize) -> Quotient
    ensures { result ≡ divided x n }
{
    if n == 0 {
        return Quotient { whole: 0, rest: x };
    }
    Quotient {
        whole: x / n,
        rest: x % n,
    }
}

// What is added to the position of an entry to get that of the next, where n entries stand in s slots: 2s divided by 2n.
pub fn position_step(s: usize, n: usize) -> Quotient
    requires { s < 2 ^ 32 }
    ensures { result ≡ divided (2 * s) (2 * n) }
{
    let by = divide(s, n);
    Quotient {
        whole: by.whole,
        rest: 2 * by.rest,
    }
}

// The position of the first of n entries in s slots, which is half the step, or s where there is none.
pub fn first_position(s: usize, n: usize, step: Quotient) -> Quotient
    requires step { step ≡ divided (2 * s) (2 * n) }
    requires small { (n < 2 ^ 32) × (s < 2 ^ 32) }
    ensures { result ≡ position_of s n 0 }
{
    if n == 0 {
        return Quotient { whole: s, rest: 0 };
    }
    Quotient {
        whole: step.whole / 2,
        rest: step.whole % 2 * n + step.rest / 2,
    }
}

// A leaf: so many slots from `from` on, and so many entries, which stand in a list from `at` on.
#[derive(Clone, Copy)]
pub struct Leaf {
    pub from: usize,
    pub slots: usize,
    pub at: usize,
    pub entries: usize,
}

// The entry of a leaf that comes next, and its position.
#[derive(Clone, Copy)]
struct Next {
    k: usize,
    position: Quotient,
}

// Writes slot i of a leaf, in front of which the pass is: the next entry where this is its slot, and 0 otherwise. After the write the leaf's
// slots up to it hold what the rule gives, and its later ones what they held before.
fn write_slot(
    slots: &mut [u64],
    leaf: Leaf,
    list: &[u64],
    step: Quotient,
    i: usize,
    next: Next,
) -> Next
    requires pass { InFront leaf list.now i next slots.old }
    requires inside { i < leaf.slots }
    requires step { step ≡ divided (2 * leaf.slots) (2 * leaf.entries) }
    ensures { (slots.new ≡ written_to leaf list.now (i + 1) slots.old)
        × InFront leaf list.now (i + 1) result slots.new }
{
    let slot = leaf.from + i;
    if i == next.position.whole {
        slots[slot] = list[leaf.at + next.k];
        return Next {
            k: next.k + 1,
            position: next.position.plus(step, 2 * leaf.entries),
        };
    }
    slots[slot] = 0;
    next
}

// Writes the slots of a leaf by the leaf rule: each slot once, from left to right.
fn spread_leaf(slots: &mut [u64], leaf: Leaf, list: &[u64])
    requires { LeafReady leaf slots.old list.now }
    ensures { slots.new
        ≡ take leaf.from slots.old
        ++ spread leaf.slots (take leaf.entries (drop leaf.at list.now))
        ++ drop (leaf.from + leaf.slots) slots.old }
{
    let step = position_step(leaf.slots, leaf.entries);
    let mut next = Next {
        k: 0,
        position: first_position(leaf.slots, leaf.entries, step),
    };
    for i in 0..leaf.slots {
        next = write_slot(slots, leaf, list, step, i, next);
    }
}

// The count of the range k.
pub fn count_at(counts: &[u32], k: usize) -> usize
    requires inside { k < length counts.now }
    ensures { result ≡ get_or counts.now k 0 }
{
    counts[k] as usize
}

// Lays leaves of s slots out one after the other, from the slot `from` on: their numbers of entries stand in the counts from `first` on,
// and the entries in the list from its start on.
pub fn lay_leaves(
    slots: &mut [u64],
    from: usize,
    s: usize,
    counts: &[u32],
    first: usize,
    leaves: usize,
    list: &[u64],
)
    requires { LeavesReady slots.old from s counts.now first leaves list.now }
    ensures { slots.new
        ≡ take from slots.old
        ++ lay_leaves s (take leaves (drop first counts.now)) list.now
        ++ drop (from + s * leaves) slots.old }
{
    let mut to = from;
    let mut at: usize = 0;
    for count in &counts[first..first + leaves] {
        let n = *count as usize;
        let leaf = Leaf {
            from: to,
            slots: s,
            at: at,
            entries: n,
        };
        spread_leaf(slots, leaf, list);
        to += s;
        at += n;
    }
}

// The entries of `len` slots from `from` on, put at the front of the list; how many they are. What a slot holds is
// written behind the entries found so far, and counted where it is not 0: so the loop needs no branch for what a slot holds.
pub fn gather(slots: &[u64], from: usize, len: usize, list: &mut [u64]) -> usize
    requires { GatherReady slots.now from len list.old }
    ensures { Gathered (nonzero (take len (drop from slots.now))) list.old result list.new }
{
    let mut n: usize = 0;
    for slot in &slots[from..from + len] {
        let held = *slot;
        list[n] = held;
        let is_entry = held != 0;
        if is_entry {
            n += 1;
        }
    }
    n
}
