// The search for a key in a timed sheet: down the ranges by the third slice, and then through one leaf.
#![tactic(auto)]

ghost use Rattle.std.specs.Prelude.{◌≡◌, [], ◌∷◌, ◌+◌, ◌*◌, ◌^◌, ◌≤◌, ◌<◌, length, take, drop};
ghost use Rattle.tree_sizes.specs.Sizes.{height};
ghost use Rattle.store_layout.specs.Leaf.{nonzero};
ghost use Rattle.store_keys.specs.Key as keys;
ghost use Rattle.store_search.specs.Sought.{sought_in, SearchReady};
ghost use Rattle.store_search.specs.LeafFor.{start_for, sought_behind};

use store_keys::key;
use store_layout::count_at;
use tree_sizes::Size;

// The first slot of a leaf, and the number of entries that stand before it.
#[derive(Clone, Copy)]
struct Start {
    slot: usize,
    before: usize,
}

// Goes down the ranges of a sheet of this size to the leaf in which an entry with the key k stands or would stand: into the left half of a
// range where k is below the key of the balance entry, and into the right half, behind the entries of the left one, where not.
fn start_for(size: Size, counts: &[u32], balance: &[u64], k: u64) -> Start
    requires most { size.m < 2 ^ 32 }
    requires counts { 2 * 2 ^ height size.m ≤ length counts.now }
    requires balance { 2 ^ height size.m ≤ length balance.now }
    ensures { result ≡ start_for size.m counts.now balance.now k }
{
    let h = size.height();
    let mut range = 1;
    let mut before = 0;
    for _depth in 0..h {
        let middle = key(balance[range]);
        range = 2 * range;
        let n = count_at(counts, range);
        if middle <= k {
            before += n;
            range += 1;
        }
    }
    let leaf = range - tree_sizes::power(h);
    let slot = size.leaf_slots() * leaf;
    Start {
        slot: slot,
        before: before,
    }
}

// 1 where the slot holds an entry with a key below k, and 0 otherwise.
fn count_below(held: u64, k: u64) -> usize
    ensures { result ≡ keys.rank_of k (nonzero (held ∷ [])) }
{
    if held == 0 {
        return 0;
    }
    if key(held) < k { 1 } else { 0 }
}

// The slot holds an entry with the key k.
fn has_key(held: u64, k: u64) -> bool
    ensures { result ≡ keys.present k (nonzero (held ∷ [])) }
{
    if held == 0 {
        return false;
    }
    key(held) == k
}

// The key k among the entries of the leaf, of so many slots, that starts there, as `search` gives it. All its slots are looked at, so that the loop needs no
// branch for what a slot holds.
fn search_leaf(slots: &[u64], start: Start, len: usize, k: u64) -> Result<usize, usize>
    requires room { start.slot + len ≤ length slots.now }
    requires small { start.before + len < 2 ^ 64 }
    ensures { result ≡ sought_behind start.before k (nonzero (take len (drop start.slot slots.now))) }
{
    let from = start.slot;
    let mut rank = start.before;
    let mut present = false;
    for held in &slots[from..from + len] {
        rank += count_below(*held, k);
        present |= has_key(*held, k);
    }
    if present { Ok(rank) } else { Err(rank) }
}

// The rank of the entry with the key of this one in a sheet of this size; an error is the rank at which it would stand, where none is there.
pub fn search(
    size: Size,
    slots: &[u64],
    counts: &[u32],
    balance: &[u64],
    entry: u64,
) -> Result<usize, usize>
    requires { SearchReady size.m slots.now counts.now balance.now }
    ensures { result ≡ sought_in (keys.key entry) (nonzero slots.now) }
{
    let k = key(entry);
    let start = start_for(size, counts, balance, k);
    search_leaf(slots, start, size.leaf_slots(), k)
}
