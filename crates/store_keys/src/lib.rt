// Entries of a timed sheet compared by their keys.
#![tactic(auto)]

ghost use Rattle.std.specs.Prelude.{◌≡◌, [], ◌∷◌, ◌≤◌, length, take};
ghost use Rattle.store_layout.specs.Leaf.{nonzero};
ghost use Rattle.store_keys.specs.Key as keys;
ghost use Rattle.store_keys.specs.Passed.{key_after};

// The key of an entry.
pub fn key(entry: u64) -> u64
    ensures { result ≡ keys.key entry }
{
    entry % 4611686018427387904
}

// The last key behind a slot: that of the entry that it holds, and the one before where it holds none.
fn key_after(last: u64, held: u64) -> u64
    ensures { result ≡ key_after last held }
{
    if held == 0 {
        return last;
    }
    key(held)
}

// The slot holds no entry, or one with a key above the last.
fn is_above(last: u64, held: u64) -> bool
    ensures { result ≡ keys.rise_from last (nonzero (held ∷ [])) }
{
    if held == 0 {
        return true;
    }
    last < key(held)
}

// The entries in the slots before `end` rise by their keys, the first from above 0. Whether they do is joined and told at the end, so that
// the loop needs no branch for what a slot holds.
pub fn entries_rise(slots: &[u64], end: usize) -> bool
    requires { end ≤ length slots.now }
    ensures { result ≡ keys.rises (nonzero (take end slots.now)) }
{
    let mut rising = true;
    let mut last = 0;
    for held in &slots[..end] {
        rising &= is_above(last, *held);
        last = key_after(last, *held);
    }
    rising
}
