// Retired boats and scoring boats, by bit 62 of their entries.
#![tactic(auto)]

ghost use Rattle.std.specs.Prelude.{◌≡◌, [], ◌∷◌, ◌+◌, ◌≤◌, length, take, drop};
ghost use Rattle.store_layout.specs.Leaf.{nonzero};
ghost use Rattle.store_scoring.specs.Scoring.{retired_bit, tally, none_retired};

// The boat with this entry is retired.
pub fn is_retired(entry: u64) -> bool
    ensures { result ≡ retired_bit entry }
{
    entry % 9223372036854775808 >= 4611686018427387904
}

// The number of scoring entries in one slot: 1 or 0.
fn scores(slot: u64) -> usize
    ensures { result ≡ tally (nonzero (slot ∷ [])) }
{
    if slot == 0 {
        return 0;
    }
    if is_retired(slot) {
        return 0;
    }
    1
}

// The number of retired boats in one slot, 1 or 0: bit 62 of what it holds.
fn retired_in(slot: u64) -> usize
    ensures { result + tally (nonzero (slot ∷ [])) ≡ length (nonzero (slot ∷ [])) }
{
    (slot / 4611686018427387904 % 2) as usize
}

// The number of scoring entries in the `len` slots from `from` on, which hold so many entries: all but those of retired boats.
pub fn tally_of(slots: &[u64], from: usize, len: usize, entries: usize) -> usize
    requires room { from + len ≤ length slots.now }
    requires number { entries ≡ length (nonzero (take len (drop from slots.now))) }
    ensures { result ≡ tally (nonzero (take len (drop from slots.now))) }
{
    let mut retired = 0;
    for slot in &slots[from..from + len] {
        retired += retired_in(*slot);
    }
    entries - retired
}

// The number of scoring entries among the first `count` entries of those in the slots from `from` on.
pub fn scoring_among(slots: &[u64], from: usize, count: usize) -> usize
    requires entries { count ≤ length (nonzero (drop from slots.now)) }
    ensures { result ≡ tally (take count (nonzero (drop from slots.now))) }
{
    let mut scoring: usize = 0;
    let mut seen: usize = 0;
    let mut at = from;
    while seen < count {
        let x = slots[at];
        at += 1;
        if x != 0 {
            scoring += scores(x);
            seen += 1;
        }
    }
    scoring
}

// No boat with an entry in these slots is retired. The slots are joined bit by bit and the bit is looked at once, since in a sheet all have to
// be looked at.
fn none_among(slots: &[u64]) -> bool
    ensures { result ≡ none_retired (nonzero slots.now) }
{
    let joined = slots.iter().fold(0, |joined, slot| joined | *slot);
    !is_retired(joined)
}

// No boat with an entry in the first `len` slots is retired: blocks of 64 first, then what is left.
pub fn none_retired(slots: &[u64], len: usize) -> bool
    requires room { len ≤ length slots.now }
    ensures { result ≡ none_retired (nonzero (take len slots.now)) }
{
    let (blocks, rest) = slots[..len].as_chunks::<64>();
    blocks.iter().all(|block| none_among(block)) && none_among(rest)
}
