// The counts of a tree of balance ranks, and a range of it rebuilt; a change of its entries, and the part that the change is confined to.
#![tactic(auto)]

ghost use Rattle.std.specs.Prelude.{◌≡◌, ◌≢◌, ◌-◌, length, set, replicate};
ghost use Rattle.draw_shares.specs.Tape.{run_at};
ghost use Rattle.tree_sizes.specs.Sizes.{height, candidates, IsCandidate};
ghost use Rattle.tree_rules.specs.Rules as rules;
ghost use Rattle.tree_counts.specs.Rebuild.{HalveReady, left_of, right_of, RebuildReady, RangeReady, RebuiltAs};

use draw::Drawn;
use tree_sizes::Size;

// The range that a change is confined to: its number, its depth, and the rank of the entry in it.
#[derive(Clone, Copy)]
pub struct Part {
    pub range: usize,
    pub depth: usize,
    pub rank: usize,
}

// A range of the tree: its number, its depth, the levels from it to the leaves, and its number of entries.
#[derive(Clone, Copy)]
pub struct Range {
    pub k: usize,
    pub depth: usize,
    pub levels: usize,
    pub n: usize,
}

impl Range {
    // Its left half, where b is the balance rank.
    pub fn left(self, b: usize) -> Range
        requires { HalveReady self b }
        ensures { result ≡ left_of self b }
    {
        Range {
            k: 2 * self.k,
            depth: self.depth + 1,
            levels: self.levels - 1,
            n: b,
        }
    }

    // Its right half.
    pub fn right(self, b: usize) -> Range
        requires { HalveReady self b }
        ensures { result ≡ right_of self b }
    {
        Range {
            k: 2 * self.k + 1,
            depth: self.depth + 1,
            levels: self.levels - 1,
            n: self.n - b,
        }
    }
}

// Rebuilds a range above the leaves, which has c candidates: its balance entry is drawn, then its left half and then its right half, which
// have half as many candidates, are rebuilt in the same way. Halves that are leaves are written at once. Gives the place of the next word, or
// none where the tape ended.
fn rebuild_above(
    c: usize,
    size: Size,
    here: Range,
    counts: &mut [u32],
    tape: &[u32],
    at: usize,
) -> Option<usize>
    requires count { c ≡ candidates size.m here.depth }
    requires above { here.levels ≢ 0 }
    requires ready { RangeReady size.m here (length counts.old) }
    ensures { RebuiltAs (run_at (rules.rebuild size.m here.levels here.depth here.n) tape.now at) result here.k here.n counts.old counts.new }
{
    counts[here.k] = here.n as u32;
    let Drawn { face, next } = draw::draw(tape, at, c)?;
    let b = tree_sizes::window_start(here.n, c) + face;
    let left = here.left(b);
    let right = here.right(b);
    if left.levels == 0 {
        counts[left.k] = left.n as u32;
        counts[right.k] = right.n as u32;
        return Some(next);
    }
    let half = Size::half_candidates(c);
    let mid = rebuild_above(half, size, left, counts, tape, next)?;
    rebuild_above(half, size, right, counts, tape, mid)
}

// Rebuilds a range and the ranges below it.
pub fn rebuild(
    size: Size,
    here: Range,
    counts: &mut [u32],
    tape: &[u32],
    at: usize,
) -> Option<usize>
    requires { RangeReady size.m here (length counts.old) }
    ensures { RebuiltAs (run_at (rules.rebuild size.m here.levels here.depth here.n) tape.now at) result here.k here.n counts.old counts.new }
{
    if here.levels == 0 {
        counts[here.k] = here.n as u32;
        return Some(at);
    }
    let c = size.candidates(here.depth);
    rebuild_above(c, size, here, counts, tape, at)
}

// Makes b the balance rank of a range above the leaves, and rebuilds its left half and then its right half.
pub fn rebuild_halves(
    size: Size,
    here: Range,
    b: usize,
    counts: &mut [u32],
    tape: &[u32],
    at: usize,
) -> Option<usize>
    requires above { here.levels ≢ 0 }
    requires ready { RangeReady size.m here (length counts.old) }
    requires candidate { IsCandidate here.n (candidates size.m here.depth) b }
    ensures { RebuiltAs (run_at (rules.rebuild_halves size.m (here.levels - 1) here.depth here.n b) tape.now at) result here.k here.n counts.old counts.new }
{
    counts[here.k] = here.n as u32;
    let left = here.left(b);
    let right = here.right(b);
    let mid = rebuild(size, left, counts, tape, at)?;
    rebuild(size, right, counts, tape, mid)
}

// Everything rebuilt for n entries: all counts become zero, then the size parameter and the ranges are written.
pub fn fresh(size: Size, n: usize, counts: &mut [u32], tape: &[u32], at: usize) -> Option<usize>
    requires { RebuildReady size.m (height size.m) 0 1 n (length counts.old) }
    ensures { RebuiltAs (run_at (rules.rebuild size.m (height size.m) 0 n) tape.now at) result 1 n (set (replicate (length counts.old) 0) 0 size.m) counts.new }
{
    counts.fill(0);
    counts[0] = size.m as u32;
    let root = Range {
        k: 1,
        depth: 0,
        levels: size.height(),
        n,
    };
    rebuild(size, root, counts, tape, at)
}
