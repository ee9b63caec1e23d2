// Whether every number of a slice is 0.
#![tactic(auto)]

ghost use Rattle.std.specs.Prelude.{◌≡◌, drop};
ghost use Rattle.store_zeros.specs.AllZero.{all_zero};

// Every slot is 0. All are joined bit by bit and compared once, since in a sheet all have to be looked at.
fn all_are_zero(slots: &[u64]) -> bool
    ensures { result ≡ all_zero slots.now }
{
    let mut joined: u64 = 0;
    for slot in slots {
        joined |= *slot;
    }
    joined == 0
}

// Every slot from `from` on is 0: blocks of 64 first, then what is left.
pub fn slots_are_zero(slots: &[u64], from: usize) -> bool
    ensures { result ≡ all_zero (drop from slots.now) }
{
    let Some(tail) = slots.get(from..) else {
        return true;
    };
    let (blocks, rest) = tail.as_chunks::<64>();
    for block in blocks {
        if !all_are_zero(block) {
            return false;
        }
    }
    all_are_zero(rest)
}

// Every count from the range number `from` on is 0, found in the same way as in a block of slots.
pub fn counts_are_zero(counts: &[u32], from: usize) -> bool
    ensures { result ≡ all_zero (drop from counts.now) }
{
    let Some(tail) = counts.get(from..) else {
        return true;
    };
    let mut joined: u32 = 0;
    for count in tail {
        joined |= *count;
    }
    joined == 0
}
