// The ranks of a notice board tested, and their entries read out in one walk along the slots.
#![tactic(auto)]

ghost use Rattle.std.specs.Prelude.{◌≡◌, false, ◌++◌, ◌≤◌, length, drop};
ghost use Rattle.store_layout.specs.Leaf.{nonzero};
ghost use Rattle.store_board.specs.Board.{falls_below, falls, some_from, entries_at};

// Whether the ranks fall: one is below the one before it.
pub fn ranks_fall(ranks: &[u64]) -> bool
    ensures { result ≡ falls ranks.now }
{
    let mut low = 0;
    for rank in ranks {
        if *rank < low {
            return true;
        }
        low = *rank;
    }
    false
}

// Whether one of the ranks, which do not fall, is that of no entry, of n entries: then the last one is.
pub fn some_rank_from(ranks: &[u64], n: usize) -> bool
    requires { falls ranks.now ≡ false }
    ensures { result ≡ some_from n ranks.now }
{
    match ranks.last() {
        Some(last) => n <= *last as usize,
        None => false,
    }
}

// Copies the entries at the ranks to the front of the output, in one walk along the slots from `start` on, before which `passed` entries stand.
// It goes on from the slot of one entry to that of the next, and stays where a rank is repeated; the slot to which it comes is returned, and it
// is not before `start`.
pub fn copy_entries(
    slots: &[u64],
    start: usize,
    passed: usize,
    ranks: &[u64],
    output: &mut [u64],
) -> usize
    requires from { nonzero (drop start slots.now) ≡ drop passed (nonzero slots.now) }
    requires order { falls_below passed ranks.now ≡ false }
    requires entries { some_from (length (nonzero slots.now)) ranks.now ≡ false }
    requires room { length ranks.now ≤ length output.old }
    ensures { (start ≤ result) × (output.new
        ≡ entries_at (nonzero slots.now) ranks.now ++ drop (length ranks.now) output.old) }
{
    let mut at = start;
    let mut seen = passed;
    for (k, next) in ranks.iter().enumerate() {
        let rank = *next as usize;
        at = store_slices::entry_slot(slots, at, rank - seen);
        output[k] = slots[at];
        seen = rank;
    }
    at
}
