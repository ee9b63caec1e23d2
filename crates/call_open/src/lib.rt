// A store looked at for a call: the causes before 7, in their order.
#![tactic(auto)]

ghost use Rattle.std.specs.Prelude.{◌≡◌, length};
ghost use Rattle.store_layout.specs.Decode.{numbered};
ghost use Rattle.store_layout.specs.Room.{CapacityReady};
ghost use Rattle.call_outcomes.specs.PlainCalls.{insert_at, plain_change, change_cause, read_ranks, place_of, board_of, question_cause};
ghost use Rattle.call_outcomes.specs.Untallied.{untallied_view, store_of};
ghost use Rattle.call_open.specs.Opening.{Opening, admitted};

use call_outcomes::Cause;
use store_layout::Capacity;
use tree_rules::Change;
use tree_sizes::Size;

// What a store is found to hold: a sheet of n entries with the size parameter m.
#[derive(Clone, Copy)]
pub struct Opened {
    pub n: usize,
    pub m: usize,
}

// Looks at a store: the lengths are right and it is a sheet, or cause 1 or 2 decides. The counts of a sheet are copied to the work array, by
// range number. A size parameter that no sheet of the capacity has is refused before the counts are read in its order.
pub fn examine(
    cap: Capacity,
    slots: &[u64],
    counts: &[u32],
    work: &mut [u32],
) -> Result<Opened, Cause>
    requires capacity { CapacityReady cap }
    requires room { length work.old ≡ cap.counts }
    ensures { Opening (untallied_view cap) numbered (store_of slots.now counts.now) result work.new }
{
    if slots.len() != cap.slots {
        return Err(Cause::Lengths);
    }
    if counts.len() != cap.counts {
        return Err(Cause::Lengths);
    }
    let m = counts[0] as usize;
    if store_test::greatest_size(cap.entries) < m {
        return Err(Cause::NotASheet);
    }
    let size = Size { m: m };
    store_counts::read_counts(size, counts, work);
    if !store_test::is_sheet(cap, slots, work) {
        return Err(Cause::NotASheet);
    }
    let n = work[1] as usize;
    Ok(Opened { n: n, m: m })
}

// Causes 3 to 5 of an insert, where there is room for so many entries.
fn admit_insert(
    opened: Result<Opened, Cause>,
    entries: usize,
    rank: usize,
    entry: u64,
) -> Result<Opened, Cause>
    ensures { result ≡ admitted (change_cause entries (insert_at rank entry)) opened }
{
    let sheet = opened?;
    if entry == 0 {
        return Err(Cause::EntryZero);
    }
    if sheet.n < rank {
        return Err(Cause::Rank);
    }
    if entries <= sheet.n {
        return Err(Cause::Full);
    }
    Ok(sheet)
}

// Cause 4 of a place, and of a delete: the entry of the rank is there.
pub fn admit_rank(opened: Result<Opened, Cause>, rank: usize) -> Result<Opened, Cause>
    ensures { result ≡ admitted (question_cause (place_of rank)) opened }
{
    let sheet = opened?;
    if sheet.n <= rank {
        return Err(Cause::Rank);
    }
    Ok(sheet)
}

// Causes 3 to 5 of the call that makes the change, where there is room for so many entries.
pub fn admit_change(
    opened: Result<Opened, Cause>,
    entries: usize,
    change: Change,
    entry: u64,
) -> Result<Opened, Cause>
    ensures { result ≡ admitted (change_cause entries (plain_change change entry)) opened }
{
    match change {
        Change::Insert(rank) => admit_insert(opened, entries, rank, entry),
        Change::Delete(rank) => admit_rank(opened, rank),
    }
}

// Causes 4 and 6 of a read, with room for so many entries in the output.
pub fn admit_read(
    opened: Result<Opened, Cause>,
    first: usize,
    last: usize,
    room: usize,
) -> Result<Opened, Cause>
    ensures { result ≡ admitted (question_cause (read_ranks first last room)) opened }
{
    let sheet = opened?;
    if sheet.n <= first {
        return Err(Cause::Rank);
    }
    if sheet.n <= last {
        return Err(Cause::Rank);
    }
    if last < first {
        return Err(Cause::Rank);
    }
    if room < last - first + 1 {
        return Err(Cause::OutputShort);
    }
    Ok(sheet)
}

// Causes 16, 4 and 6 of a board of ranks, with room for so many entries in the output.
pub fn admit_board(
    opened: Result<Opened, Cause>,
    ranks: &[u64],
    room: usize,
) -> Result<Opened, Cause>
    ensures { result ≡ admitted (question_cause (board_of ranks.now room)) opened }
{
    let sheet = opened?;
    if 64 < ranks.len() {
        return Err(Cause::BoardRanks);
    }
    if store_board::ranks_fall(ranks) {
        return Err(Cause::BoardRanks);
    }
    if store_board::some_rank_from(ranks, sheet.n) {
        return Err(Cause::Rank);
    }
    if room < ranks.len() {
        return Err(Cause::OutputShort);
    }
    Ok(sheet)
}
