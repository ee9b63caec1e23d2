// The rules of insert and delete: what a change does to the candidates of a range, and the size step.
#![tactic(auto)]

ghost use Rattle.std.specs.Prelude.{◌≡◌, ◌+◌, ◌^◌, ◌<◌};
ghost use Rattle.draw_shares.specs.Tape.{run_at};
ghost use Rattle.tree_rules.specs.Compare.{compare, count_after};
ghost use Rattle.tree_rules.specs.Swap.{insert_swap, reverse};
ghost use Rattle.tree_rules.specs.Rules.{InReach, rank_of, at_rank, grow, insert_size, delete_size, size_step};
ghost use Rattle.tree_rules.specs.Step.{CompareReady, stepped_as};

use draw::Drawn;

// What a call does to the entries of a range: one comes in at a rank, or the one at a rank goes out.
#[derive(Clone, Copy)]
pub enum Change {
    Insert(usize),
    Delete(usize),
}

impl Change {
    // The rank at which an entry comes in or goes out.
    #[tactic(auto, unfolding(crate::specs::Rules::rank_of))]
    pub fn rank(self) -> usize
        ensures { result ≡ rank_of self }
    {
        match self {
            Change::Insert(i) => i,
            Change::Delete(i) => i,
        }
    }

    // The same change at the rank j.
    #[tactic(auto, unfolding(crate::specs::Rules::at_rank))]
    pub fn at_rank(self, j: usize) -> Change
        ensures { result ≡ at_rank self j }
    {
        match self {
            Change::Insert(_) => Change::Insert(j),
            Change::Delete(_) => Change::Delete(j),
        }
    }

    // The number of entries after the change of n entries.
    #[tactic(auto, unfolding(crate::specs::Compare::count_after, crate::specs::Rules::InReach))]
    pub fn count_after(self, n: usize) -> usize
        requires { InReach self n × (n < 2 ^ 62) }
        ensures { result ≡ count_after self n }
    {
        match self {
            Change::Insert(_) => n + 1,
            Change::Delete(_) => n - 1,
        }
    }
}

// The candidates of a range before and after a change: the same entries, or one leaves and one enters.
#[derive(Clone, Copy)]
pub enum Comparison {
    Unchanged,
    Swapped { out: usize, into: usize },
}

impl Comparison {
    // What leaves enters, and what enters leaves.
    #[tactic(auto, unfolding(crate::specs::Swap::reverse))]
    fn reverse(self) -> Comparison
        ensures { result ≡ reverse self }
    {
        match self {
            Comparison::Unchanged => Comparison::Unchanged,
            Comparison::Swapped { out, into } => Comparison::Swapped {
                out: into,
                into: out,
            },
        }
    }
}

// The comparison where an entry comes in at rank i: the c candidates are the ranks from `before` on, and after it those from `after` on,
// which is `before` or one more.
#[tactic(auto, unfolding(crate::specs::Swap::insert_swap, base::specs::Cases::if_eq, base::specs::Cases::if_lt))]
fn insert_swap(i: usize, before: usize, after: usize, c: usize) -> Comparison
    requires some { 0 < c }
    requires fits { before + c < 2 ^ 64 }
    ensures { result ≡ insert_swap i before after c }
{
    let end = before + c;
    let last = end - 1;
    if after == before {
        if i < end {
            let into = i.max(before);
            return Comparison::Swapped { out: last, into };
        }
        return Comparison::Unchanged;
    }
    if before < i {
        let into = i.min(end);
        return Comparison::Swapped { out: before, into };
    }
    Comparison::Unchanged
}

// The candidates, of which there are c, among n entries and after a change, compared by identity of entry.
pub fn compare(change: Change, n: usize, c: usize) -> Comparison
    requires { CompareReady change n c }
    ensures { result ≡ compare change n c }
{
    match change {
        Change::Insert(i) => {
            let before = tree_sizes::window_start(n, c);
            let after = tree_sizes::window_start(n + 1, c);
            insert_swap(i, before, after, c)
        }
        Change::Delete(i) => {
            let before = tree_sizes::window_start(n, c);
            let after = tree_sizes::window_start(n - 1, c);
            insert_swap(i, after, before, c).reverse()
        }
    }
}

// What the size step gives: the size parameter is kept, or set anew. With the place of the next word.
#[derive(Clone, Copy)]
pub enum Stepped {
    Kept { next: usize },
    Anew { m: usize, next: usize },
}

// The size parameter becomes 2 n + a draw among 2.
fn grow(n: usize, tape: &[u32], at: usize) -> Option<Stepped>
    requires most { n < 2 ^ 62 }
    ensures { result ≡ stepped_as (run_at (grow n) tape.now at) }
{
    let Drawn { face, next } = draw::draw(tape, at, 2)?;
    Some(Stepped::Anew {
        m: 2 * n + face,
        next,
    })
}

// The size step of an insert into n entries. No entry: m becomes 1. m = n: m grows. Otherwise m grows by face 0 of a draw among n + 1,
// and is kept by any other face.
fn insert_size(n: usize, m: usize, tape: &[u32], at: usize) -> Option<Stepped>
    requires most { n < 2 ^ 62 }
    ensures { result ≡ stepped_as (run_at (insert_size n m) tape.now at) }
{
    if n == 0 {
        return Some(Stepped::Anew { m: 1, next: at });
    }
    if m == n {
        return grow(n, tape, at);
    }
    let Drawn { face, next } = draw::draw(tape, at, n + 1)?;
    if face == 0 {
        return grow(n, tape, next);
    }
    Some(Stepped::Kept { next })
}

// The size step of a delete from n entries. One entry: m becomes 0. m ≥ 2 n - 2: a draw among 2 n - 2 tells the new m. Otherwise m is
// kept, with no draw.
fn delete_size(n: usize, m: usize, tape: &[u32], at: usize) -> Option<Stepped>
    requires some { 0 < n }
    requires most { n < 2 ^ 62 }
    ensures { result ≡ stepped_as (run_at (delete_size n m) tape.now at) }
{
    if n == 1 {
        return Some(Stepped::Anew { m: 0, next: at });
    }
    let faces = 2 * n - 2;
    if m < faces {
        return Some(Stepped::Kept { next: at });
    }
    let Drawn { face, next } = draw::draw(tape, at, faces)?;
    if face < n - 2 {
        return Some(Stepped::Anew { m: n + face, next });
    }
    Some(Stepped::Anew { m: n - 1, next })
}

// The size step of a change to n entries with the size parameter m, by the words of the tape from the place `at` on.
#[tactic(auto, unfolding(crate::specs::Rules::size_step, crate::specs::Rules::InReach))]
pub fn size_step(change: Change, n: usize, m: usize, tape: &[u32], at: usize) -> Option<Stepped>
    requires rank { InReach change n }
    requires most { n < 2 ^ 62 }
    ensures { result ≡ stepped_as (run_at (size_step change n m) tape.now at) }
{
    match change {
        Change::Insert(_) => insert_size(n, m, tape, at),
        Change::Delete(_) => delete_size(n, m, tape, at),
    }
}
