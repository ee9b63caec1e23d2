// The size rules of document 01: what the size parameter M gives, and where the candidates of a range stand.
#![tactic(auto)]

ghost use Rattle.std.specs.Prelude.{◌≡◌, ◌^◌, ◌<◌, ◌≤◌};
ghost use Rattle.tree_sizes.specs.Sizes.{digits, height, leaf_slots, slots, candidates, half_candidates, window_start};

// 2 ^ k
pub fn power(k: usize) -> usize
    requires fits { k < 64 }
    ensures { result ≡ 2 ^ k }
{
    1usize << k
}

// The size parameter M of a sheet.
#[derive(Clone, Copy)]
pub struct Size {
    pub m: usize,
}

impl Size {
    // g, the number of binary digits of M - 1.
    pub fn digits(self) -> usize
        requires least { 1 < self.m }
        ensures { result ≡ digits self.m }
    {
        let below = self.m - 1;
        64 - below.leading_zeros() as usize
    }

    // h, the depth of the leaves: 0 up to M = 64; above, how often g can be doubled without passing M.
    pub fn height(self) -> usize
        ensures { result ≡ height self.m }
    {
        if self.m <= 64 {
            return 0;
        }
        (self.m / self.digits()).ilog2() as usize
    }

    // The slots of a leaf: M up to M = 64, where the one range is the leaf; above, 3 g.
    pub fn leaf_slots(self) -> usize
        ensures { result ≡ leaf_slots self.m }
    {
        if self.m <= 64 {
            return self.m;
        }
        3 * self.digits()
    }

    // The slots of the sheet: those of a leaf for each of its leaves.
    pub fn slots(self) -> usize
        requires most { self.m < 2 ^ 32 }
        ensures { result ≡ slots self.m }
    {
        let leaf = self.leaf_slots();
        let h = self.height();
        leaf * power(h)
    }

    // c, the number of candidates of a range above the leaves: M / (4 g 2 ^ depth), rounded up.
    pub fn candidates(self, depth: usize) -> usize
        requires least { 1 < self.m }
        requires most { self.m < 2 ^ 32 }
        requires deepest { depth < 32 }
        ensures { result ≡ candidates self.m depth }
    {
        let step = 4 * self.digits() * power(depth);
        self.m.div_ceil(step)
    }

    // The number of candidates of each half of a range with c candidates, above the leaves: half of c, rounded up.
    pub fn half_candidates(c: usize) -> usize
        ensures { result ≡ half_candidates c }
    {
        c.div_ceil(2)
    }
}

// The rank, from 0, of the first of c candidates among n entries: half of n less half of c, each rounded up.
pub fn window_start(n: usize, c: usize) -> usize
    requires fit { c ≤ n }
    ensures { result ≡ window_start n c }
{
    n.div_ceil(2) - c.div_ceil(2)
}
