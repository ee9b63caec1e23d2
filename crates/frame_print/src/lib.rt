// The lines that answer a print: the sheet, leaf by leaf.
#![tactic(auto)]

ghost use Rattle.std.specs.Prelude.{[], ◌+◌, ◌*◌, ◌<◌, ◌≤◌, length};
ghost use Rattle.call_outcomes.specs.Outcome.{outcome};
ghost use Rattle.call_outcomes.specs.PlainCalls as call;
ghost use Rattle.call_outcomes.specs.Untallied.{store_of};
ghost use Rattle.call_outcomes.specs.Plain.{plain, plain_store_of};
ghost use Rattle.call_outcomes.specs.Clubs.{clubs};
ghost use Rattle.frame_replies.specs.Reply.{bytes_of, line_of};
ghost use Rattle.frame_replies.specs.Wrote.{Wrote};
ghost use Rattle.frame_answers.specs.Step.{leaf_reply, leaf_replies, sheet_replies, print_lines, longest};
ghost use Rattle.frame_print.specs.Printed.{PrintReady, leaves_most};

use call_outcomes::Returned;
use tree_sizes::Size;

// The line of leaf j, of s slots, whose range has the number first + j. The counts are those by range number.
fn print_leaf(
    slots: &[u64],
    counts: &[u32],
    s: usize,
    first: usize,
    j: usize,
    output: &mut [u8],
    at: usize,
) -> usize
    requires slots { j * s + s ≤ length slots.now }
    requires counts { first + j < length counts.now }
    requires room { at + (11 + 16 * s) ≤ length output.old }
    ensures { Wrote output.old at (line_of (leaf_reply slots.now counts.now s first j)) output.new result }
{
    let count = store_layout::count_at(counts, first + j) as u64;
    let from = j * s;
    let end = from + s;
    frame_replies::put_leaf(output, at, j as u64, count, &slots[from..end])
}

// The lines of all leaves.
fn print_leaves(
    slots: &[u64],
    counts: &[u32],
    s: usize,
    leaves: usize,
    output: &mut [u8],
    at: usize,
) -> usize
    requires slots { leaves * s ≤ length slots.now }
    requires counts { 2 * leaves ≤ length counts.now }
    requires room { at + leaves * (11 + 16 * s) ≤ length output.old }
    ensures { Wrote output.old at (bytes_of (leaf_replies slots.now counts.now s leaves 0 leaves)) output.new result }
{
    let mut next = at;
    for j in 0..leaves {
        next = print_leaf(slots, counts, s, leaves, j, output, next);
    }
    next
}

// The lines 90 and 91 of a sheet.
fn print_sheet(slots: &[u64], counts: &[u16], output: &mut [u8], at: usize) -> usize
    requires sheet { PrintReady (store_of slots.now counts.now) }
    requires room { at + (11 + leaves_most (store_of slots.now counts.now)) ≤ length output.old }
    ensures { Wrote output.old at (bytes_of (sheet_replies (store_of slots.now counts.now))) output.new result }
{
    let m = counts[0] as usize;
    let n = frame_answers::entry_count(counts);
    let next = frame_replies::put_sheet(output, at, m as u64, n);
    if m == 0 {
        return next;
    }
    let size = Size { m: m };
    let s = size.leaf_slots();
    let leaves = tree_sizes::power(size.height());
    let mut numbered = [0u32; 256];
    sheet_clubs::read_counts(size, counts, &mut numbered);
    print_leaves(slots, &numbered, s, leaves, output, next)
}

// A print.
pub fn print_line(slots: &[u64], counts: &[u16], tallies: &[u16], output: &mut [u8]) -> usize
    requires { longest ≤ length output.old }
    ensures { Wrote output.old 0
        (bytes_of (print_lines (outcome (plain clubs) call.check [] (plain_store_of slots.now counts.now tallies.now) []) (plain_store_of slots.now counts.now tallies.now)))
        output.new result }
{
    let number = Returned::from(sheet_calls::check(slots, counts, tallies)).number;
    let next = frame_answers::answer(output, 133, number, counts);
    if number != 0 {
        return next;
    }
    print_sheet(slots, counts, output, next)
}
