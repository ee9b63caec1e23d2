// Questions about a sheet, answered by what its store was found to hold.
#![tactic(auto)]

ghost use Rattle.std.specs.Prelude.{◌≡◌, [], ◌<◌, length};
ghost use Rattle.store_layout.specs.Leaf.{nonzero};
ghost use Rattle.store_ties.specs.Ties.{placing_in};
ghost use Rattle.call_outcomes.specs.PlainCalls.{read_ranks, place_of, count_of, board_of};
ghost use Rattle.call_questions.specs.Asked.{asked, Answers, Readable, Tallied, ByNumber};

use call_open::Opened;
use call_outcomes::{Answer, Cause};
use store_layout::count_at;
use store_ties::Placing;
use tree_sizes::Size;

// Copies the entries of ranks first to last to the front of the output, from the leaf on in which the first of them stands.
pub fn read(
    opened: Result<Opened, Cause>,
    slots: &[u64],
    work: &[u32],
    first: usize,
    last: usize,
    output: &mut [u64],
) -> Result<Answer, Cause>
    requires { Readable opened slots.now work.now }
    ensures { record { answer = result; output = output.new }
        ≡ asked (read_ranks first last (length output.old)) opened (nonzero slots.now) output.old }
{
    let sheet = call_open::admit_read(opened, first, last, output.len())?;
    let count = last - first + 1;
    let start = store_rank::start_of(Size { m: sheet.m }, work, first);
    store_slices::read_from(slots, start.slot, start.rank, count, output);
    Ok(Answer::Entries { count: count })
}

// Copies the entries at the ranks to the front of the output, in one walk along the slots: the leaves before that of the first rank are passed by
// their counts, and from there on it goes forward only.
pub fn board(
    opened: Result<Opened, Cause>,
    slots: &[u64],
    work: &[u32],
    ranks: &[u64],
    output: &mut [u64],
) -> Result<Answer, Cause>
    requires { Readable opened slots.now work.now }
    ensures { record { answer = result; output = output.new }
        ≡ asked (board_of ranks.now (length output.old)) opened (nonzero slots.now) output.old }
{
    let sheet = call_open::admit_board(opened, ranks, output.len())?;
    if 0 < ranks.len() {
        let lowest = ranks[0] as usize;
        let start = store_rank::start_of(Size { m: sheet.m }, work, lowest);
        store_board::copy_entries(slots, start.slot, lowest - start.rank, ranks, output);
    }
    Ok(Answer::Entries { count: ranks.len() })
}

// What the boat at the rank has, on a sheet with the size parameter m whose tallies stand by range number. The scoring boats before her are those
// in the leaves before hers, by the tallies on the path down, and those before her in her leaf.
fn placing_of(m: usize, slots: &[u64], work: &[u32], tallies: &[u32], rank: usize) -> Placing
    requires sheet { ByNumber m slots.now work.now tallies.now }
    requires below { rank < length (nonzero slots.now) }
    ensures { result ≡ placing_in (nonzero slots.now) rank }
{
    let start = store_rank::start_of(Size { m: m }, work, rank);
    let ahead = store_tallies::tally_before(Size { m: m }, tallies, start.leaf);
    let before = ahead + store_scoring::scoring_among(slots, start.slot, start.rank);
    let slot = store_slices::entry_slot(slots, start.slot, start.rank);
    store_ties::placing_at(slots, slot, before, count_at(tallies, 1))
}

// The place of the entry at the rank: that of her tied group, the sum of its places and the number of its boats; a retired boat has none.
// `numbers` has the tallies by range number.
pub fn place(
    opened: Result<Opened, Cause>,
    slots: &[u64],
    work: &[u32],
    numbers: &[u32],
    rank: usize,
) -> Result<Answer, Cause>
    requires { Tallied opened slots.now work.now numbers.now }
    ensures { record { answer = result; output = [] } ≡ asked (place_of rank) opened (nonzero slots.now) [] }
{
    let sheet = call_open::admit_rank(opened, rank)?;
    let placing = placing_of(sheet.m, slots, work, numbers, rank);
    Ok(Answer::Placed {
        place: placing.place,
        sum: placing.sum,
        boats: placing.boats,
    })
}

// The number of entries of a sheet.
pub fn check(opened: Result<Opened, Cause>) -> Result<Answer, Cause>
    ensures { Answers count_of opened result }
{
    let sheet = opened?;
    Ok(Answer::Checked { n: sheet.n })
}
