// The walk down a tree of balance ranks, where the size parameter is kept: the counts changed by an entry that comes in or goes out.
#![tactic(auto)]

ghost use Rattle.std.specs.Prelude.{◌≡◌, ◌^◌, ◌<◌, length, MatchOption};
ghost use Rattle.draw_shares.specs.Tape.{ended, run_at};
ghost use Rattle.tree_rules.specs.Rules as rules;
ghost use Rattle.tree_counts.specs.Counts.{shape_in};
ghost use Rattle.tree_counts.specs.Rebuild.{HalveReady, RebuiltAs};
ghost use Rattle.tree_walk.specs.Updated.{UpdatedAs};
ghost use Rattle.tree_walk.specs.Walk.{CountedAt, entries_after, range_after, part_of, half_of, WalkReady, walk_run, stop_run, StopReady, Stopped};

use tree_counts::{Part, Range, rebuild, rebuild_halves};
use tree_rules::Change;
use tree_sizes::Size;
use tree_visit::{Visited, visit};

// What a change of the counts comes to: the size parameter, the part to lay out anew and the place of the next word.
#[derive(Clone, Copy)]
pub struct Updated {
    pub m: usize,
    pub part: Part,
    pub next: usize,
}

// A range on the walk, and the change to its entries.
#[derive(Clone, Copy)]
struct Walked {
    range: Range,
    change: Change,
}

impl Walked {
    // The range with its number of entries after the change.
    fn after(self) -> Range
        requires { rules.InReach self.change self.range.n × (self.range.n < 2 ^ 62) }
        ensures { result ≡ range_after self }
    {
        let n = self.change.count_after(self.range.n);
        Range { n, ..self.range }
    }

    // The part that it is.
    fn part(self) -> Part
        ensures { result ≡ part_of self }
    {
        Part {
            range: self.range.k,
            depth: self.range.depth,
            rank: self.change.rank(),
        }
    }

    // Its half that gains or loses the entry, where b is the balance rank.
    fn half(self, b: usize) -> Walked
        requires { HalveReady self.range b }
        ensures { result ≡ half_of self b }
    {
        let rank = self.change.rank();
        if b < rank {
            return Walked {
                range: self.range.right(b),
                change: self.change.at_rank(rank - b),
            };
        }
        Walked {
            range: self.range.left(b),
            change: self.change,
        }
    }
}

// The range that the walk stops at, and what its visit gave: it is rebuilt, or its halves are. Where it is passed, a leaf is reached.
#[derive(Clone, Copy)]
struct Stop {
    here: Walked,
    visited: Visited,
}

// The number of candidates of the root, where it is no leaf.
fn root_candidates(size: Size) -> usize
    requires most { size.m < 2 ^ 32 }
    ensures { CountedAt size.m 0 result }
{
    if size.m <= 1 {
        return 0;
    }
    size.candidates(0)
}

// Goes down from the root to the range where the walk stops, and changes the counts of the ranges passed on the way.
fn descend(
    change: Change,
    n: usize,
    size: Size,
    counts: &mut [u32],
    tape: &[u32],
    start: usize,
) -> Option<Stop>
    requires { WalkReady change n size.m counts.old }
    ensures { MatchOption result (walk_run change n size.m counts.old tape.now start ≡ ended)
        (λ stop. Stopped change n size.m counts.old tape.now start stop counts.new) }
{
    let range = Range {
        k: 1,
        depth: 0,
        levels: size.height(),
        n,
    };
    let mut here = Walked { range, change };
    let mut at = start;
    let mut c = root_candidates(size);
    let stop = loop {
        if here.range.levels == 0 {
            let visited = Visited::Pass { next: at };
            break Stop { here, visited };
        }
        let b = counts[2 * here.range.k] as usize;
        let visited = visit(here.change, here.range.n, c, b, tape, at)?;
        match visited {
            Visited::Pass { next } => at = next,
            _ => break Stop { here, visited },
        }
        counts[here.range.k] = here.after().n as u32;
        here = here.half(b);
        c = Size::half_candidates(c);
    };
    Some(stop)
}

// Rebuilds the range where the walk stopped, or its halves; the count of a leaf is written.
fn rebuild_at(stop: Stop, size: Size, counts: &mut [u32], tape: &[u32]) -> Option<usize>
    requires { StopReady size.m stop (length counts.old) }
    ensures { RebuiltAs (stop_run size.m tape.now stop) result stop.here.range.k (entries_after stop.here) counts.old counts.new }
{
    let range = stop.here.after();
    match stop.visited {
        Visited::Pass { next } => {
            counts[range.k] = range.n as u32;
            Some(next)
        }
        Visited::Rebuild { next } => rebuild(size, range, counts, tape, next),
        Visited::Enter { into, next } => rebuild_halves(size, range, into, counts, tape, next),
    }
}

// The walk down from the root, where the size parameter is kept.
pub fn walk(
    change: Change,
    n: usize,
    size: Size,
    counts: &mut [u32],
    tape: &[u32],
    at: usize,
) -> Option<Updated>
    requires { WalkReady change n size.m counts.old }
    ensures { UpdatedAs change n (shape_in counts.old) (run_at (rules.reshape change n (shape_in counts.old) rules.kept) tape.now at) result (length counts.old) counts.new }
{
    let stop = descend(change, n, size, counts, tape, at)?;
    let next = rebuild_at(stop, size, counts, tape)?;
    Some(Updated {
        m: size.m,
        part: stop.here.part(),
        next,
    })
}
