// The clubs' calls for programs in C: the number of the cause is returned, and two or three values stand in an answer slice.
#![tactic(auto)]

ghost use Rattle.std.specs.Prelude.{◌≡◌, [], length};
ghost use Rattle.call_outcomes.specs.Kind.{clear};
ghost use Rattle.call_outcomes.specs.PlainCalls as call;
ghost use Rattle.call_outcomes.specs.Plain.{plain_view, plain, plain_store_of};
ghost use Rattle.call_outcomes.specs.Clubs.{clubs};
ghost use Rattle.call_mend.specs.Mending.{mended};
ghost use Rattle.call_mend.specs.Views.{plain_store};
ghost use Rattle.call_handed.specs.Handed.{handed_over, handed};
ghost use Rattle.call_orders.specs.Conversion.{to_tree, to_number};
ghost use Rattle.sheet_c.specs.HandedCounts.{handed_conversion};

use tree_rules::Change;

// Makes any contents the empty sheet.
#[unsafe(no_mangle)]
pub extern "C" fn sheet_clear(
    slots: &mut [u64],
    counts: &mut [u16],
    tallies: &mut [u16],
    answer: &mut [u64],
) -> usize
    ensures { record { number = result; store = plain_store_of slots.new counts.new tallies.new; output = []; answer = answer.new }
        ≡ handed (plain clubs) 2 clear [] (plain_store_of slots.old counts.old tallies.old) [] answer.old }
{
    if answer.len() < 2 {
        return 255;
    }
    call_handed::hand(sheet_calls::clear(slots, counts, tallies).into(), 2, answer)
}

// Makes the change of the list, with the entry of an insert.
fn hand_change(
    slots: &mut [u64],
    counts: &mut [u16],
    tallies: &mut [u16],
    change: Change,
    entry: u64,
    tape: &[u32],
    answer: &mut [u64],
) -> usize
    ensures { record { number = result; store = plain_store_of slots.new counts.new tallies.new; output = []; answer = answer.new }
        ≡ handed (plain clubs) 2 (call.changing change entry) tape.now (plain_store_of slots.old counts.old tallies.old) [] answer.old }
{
    if answer.len() < 2 {
        return 255;
    }
    call_handed::hand(
        sheet_calls::make_change(slots, counts, tallies, change, entry, tape).into(),
        2,
        answer,
    )
}

// Puts the entry in at the rank.
#[unsafe(no_mangle)]
pub extern "C" fn sheet_insert(
    slots: &mut [u64],
    counts: &mut [u16],
    tallies: &mut [u16],
    rank: usize,
    entry: u64,
    tape: &[u32],
    answer: &mut [u64],
) -> usize
    ensures { record { number = result; store = plain_store_of slots.new counts.new tallies.new; output = []; answer = answer.new }
        ≡ handed (plain clubs) 2 (call.insert rank entry) tape.now (plain_store_of slots.old counts.old tallies.old) [] answer.old }
{
    let change = Change::Insert(rank);
    hand_change(slots, counts, tallies, change, entry, tape, answer)
}

// Takes the entry at the rank out.
#[unsafe(no_mangle)]
pub extern "C" fn sheet_delete(
    slots: &mut [u64],
    counts: &mut [u16],
    tallies: &mut [u16],
    rank: usize,
    tape: &[u32],
    answer: &mut [u64],
) -> usize
    ensures { record { number = result; store = plain_store_of slots.new counts.new tallies.new; output = []; answer = answer.new }
        ≡ handed (plain clubs) 2 (call.delete rank) tape.now (plain_store_of slots.old counts.old tallies.old) [] answer.old }
{
    let change = Change::Delete(rank);
    hand_change(slots, counts, tallies, change, 0, tape, answer)
}

// Copies the entries of ranks first to last to the front of the output.
#[unsafe(no_mangle)]
pub extern "C" fn sheet_read(
    slots: &[u64],
    counts: &[u16],
    tallies: &[u16],
    first: usize,
    last: usize,
    output: &mut [u64],
    answer: &mut [u64],
) -> usize
    ensures { record { number = result; store = plain_store_of slots.now counts.now tallies.now; output = output.new; answer = answer.new }
        ≡ handed (plain clubs) 2 (call.read first last (length output.old)) [] (plain_store_of slots.now counts.now tallies.now) output.old answer.old }
{
    if answer.len() < 2 {
        return 255;
    }
    call_handed::hand(
        sheet_calls::read(slots, counts, tallies, first, last, output).into(),
        2,
        answer,
    )
}

// The place of the entry at the rank, the sum of the places of her tied group, and the number of its boats; 0, 0 and 1 for a retired boat.
#[unsafe(no_mangle)]
pub extern "C" fn sheet_place(
    slots: &[u64],
    counts: &[u16],
    tallies: &[u16],
    rank: usize,
    answer: &mut [u64],
) -> usize
    ensures { record { number = result; store = plain_store_of slots.now counts.now tallies.now; output = []; answer = answer.new }
        ≡ handed (plain clubs) 3 (call.place rank) [] (plain_store_of slots.now counts.now tallies.now) [] answer.old }
{
    if answer.len() < 3 {
        return 255;
    }
    call_handed::hand(
        sheet_calls::place(slots, counts, tallies, rank).into(),
        3,
        answer,
    )
}

// The number of entries of a sheet.
#[unsafe(no_mangle)]
pub extern "C" fn sheet_check(
    slots: &[u64],
    counts: &[u16],
    tallies: &[u16],
    answer: &mut [u64],
) -> usize
    ensures { record { number = result; store = plain_store_of slots.now counts.now tallies.now; output = []; answer = answer.new }
        ≡ handed (plain clubs) 2 call.check [] (plain_store_of slots.now counts.now tallies.now) [] answer.old }
{
    if answer.len() < 2 {
        return 255;
    }
    call_handed::hand(sheet_calls::check(slots, counts, tallies).into(), 2, answer)
}

// Counts in the order of the range numbers, put into the tree order.
#[unsafe(no_mangle)]
pub extern "C" fn sheet_to_tree_order(counts: &mut [u16], answer: &mut [u64]) -> usize
    ensures { record { number = result; counts = counts.new; answer = answer.new }
        ≡ handed_conversion to_tree counts.old answer.old }
{
    if answer.len() < 2 {
        return 255;
    }
    call_handed::hand(sheet_orders::to_tree_order(counts).into(), 2, answer)
}

// Counts in the tree order, put back into the order of the range numbers.
#[unsafe(no_mangle)]
pub extern "C" fn sheet_to_number_order(counts: &mut [u16], answer: &mut [u64]) -> usize
    ensures { record { number = result; counts = counts.new; answer = answer.new }
        ≡ handed_conversion to_number counts.old answer.old }
{
    if answer.len() < 2 {
        return 255;
    }
    call_handed::hand(sheet_orders::to_number_order(counts).into(), 2, answer)
}

// Copies the entries at the ranks, at most 64 that do not fall, to the front of the output.
#[unsafe(no_mangle)]
pub extern "C" fn sheet_board(
    slots: &[u64],
    counts: &[u16],
    tallies: &[u16],
    ranks: &[u64],
    output: &mut [u64],
    answer: &mut [u64],
) -> usize
    ensures { record { number = result; store = plain_store_of slots.now counts.now tallies.now; output = output.new; answer = answer.new }
        ≡ handed (plain clubs) 2 (call.board ranks.now (length output.old)) [] (plain_store_of slots.now counts.now tallies.now) output.old answer.old }
{
    if answer.len() < 2 {
        return 255;
    }
    call_handed::hand(
        sheet_calls::board(slots, counts, tallies, ranks, output).into(),
        2,
        answer,
    )
}

// Makes the store the sheet that has its slots and its size parameter, if there is one.
#[unsafe(no_mangle)]
pub extern "C" fn sheet_mend(
    slots: &[u64],
    counts: &mut [u16],
    tallies: &mut [u16],
    answer: &mut [u64],
) -> usize
    ensures { record { number = result; store = plain_store_of slots.now counts.new tallies.new; output = []; answer = answer.new }
        ≡ handed_over 2 (mended (plain_view clubs) (plain_store clubs) (plain_store_of slots.now counts.old tallies.old))
        (plain_store_of slots.now counts.old tallies.old) [] answer.old }
{
    if answer.len() < 2 {
        return 255;
    }
    call_handed::hand(sheet_mend::mend(slots, counts, tallies).into(), 2, answer)
}
