// The federation's plain calls as programs in C have them: the number of the cause is returned, and two or three values stand in an answer slice.
// federation_c exports them.
#![tactic(auto)]

ghost use Rattle.std.specs.Prelude.{◌≡◌, [], length};
ghost use Rattle.call_outcomes.specs.Kind as kind;
ghost use Rattle.call_outcomes.specs.PlainCalls as call;
ghost use Rattle.call_outcomes.specs.Plain.{plain_view, plain, plain_store_of};
ghost use Rattle.call_outcomes.specs.Federation.{federation};
ghost use Rattle.call_mend.specs.Mending.{mended};
ghost use Rattle.call_mend.specs.Views.{plain_store};
ghost use Rattle.call_handed.specs.Handed.{handed_over, handed};

use tree_rules::Change;

// Makes any contents the empty sheet.
pub fn clear(
    slots: &mut [u64],
    counts: &mut [u32],
    tallies: &mut [u32],
    answer: &mut [u64],
) -> usize
    ensures { record { number = result; store = plain_store_of slots.new counts.new tallies.new; output = []; answer = answer.new }
        ≡ handed (plain federation) 2 kind.clear [] (plain_store_of slots.old counts.old tallies.old) [] answer.old }
{
    if answer.len() < 2 {
        return 255;
    }
    call_handed::hand(
        federation_calls::clear(slots, counts, tallies).into(),
        2,
        answer,
    )
}

// Makes the change of the list, with the entry of an insert.
pub fn make_change(
    slots: &mut [u64],
    counts: &mut [u32],
    tallies: &mut [u32],
    change: Change,
    entry: u64,
    tape: &[u32],
    answer: &mut [u64],
) -> usize
    ensures { record { number = result; store = plain_store_of slots.new counts.new tallies.new; output = []; answer = answer.new }
        ≡ handed (plain federation) 2 (call.changing change entry) tape.now (plain_store_of slots.old counts.old tallies.old) [] answer.old }
{
    if answer.len() < 2 {
        return 255;
    }
    call_handed::hand(
        federation_calls::make_change(slots, counts, tallies, change, entry, tape).into(),
        2,
        answer,
    )
}

// Copies the entries of ranks first to last to the front of the output.
pub fn read(
    slots: &[u64],
    counts: &[u32],
    tallies: &[u32],
    first: usize,
    last: usize,
    output: &mut [u64],
    answer: &mut [u64],
) -> usize
    ensures { record { number = result; store = plain_store_of slots.now counts.now tallies.now; output = output.new; answer = answer.new }
        ≡ handed (plain federation) 2 (call.read first last (length output.old)) [] (plain_store_of slots.now counts.now tallies.now) output.old answer.old }
{
    if answer.len() < 2 {
        return 255;
    }
    call_handed::hand(
        federation_calls::read(slots, counts, tallies, first, last, output).into(),
        2,
        answer,
    )
}

// The place of the entry at the rank, the sum of the places of her tied group, and the number of its boats; 0, 0 and 1 for a retired boat.
pub fn place(
    slots: &[u64],
    counts: &[u32],
    tallies: &[u32],
    rank: usize,
    answer: &mut [u64],
) -> usize
    ensures { record { number = result; store = plain_store_of slots.now counts.now tallies.now; output = []; answer = answer.new }
        ≡ handed (plain federation) 3 (call.place rank) [] (plain_store_of slots.now counts.now tallies.now) [] answer.old }
{
    if answer.len() < 3 {
        return 255;
    }
    call_handed::hand(
        federation_calls::place(slots, counts, tallies, rank).into(),
        3,
        answer,
    )
}

// The number of entries of a sheet.
pub fn check(slots: &[u64], counts: &[u32], tallies: &[u32], answer: &mut [u64]) -> usize
    ensures { record { number = result; store = plain_store_of slots.now counts.now tallies.now; output = []; answer = answer.new }
        ≡ handed (plain federation) 2 call.check [] (plain_store_of slots.now counts.now tallies.now) [] answer.old }
{
    if answer.len() < 2 {
        return 255;
    }
    call_handed::hand(
        federation_calls::check(slots, counts, tallies).into(),
        2,
        answer,
    )
}

// Copies the entries at the ranks, at most 64 that do not fall, to the front of the output.
pub fn board(
    slots: &[u64],
    counts: &[u32],
    tallies: &[u32],
    ranks: &[u64],
    output: &mut [u64],
    answer: &mut [u64],
) -> usize
    ensures { record { number = result; store = plain_store_of slots.now counts.now tallies.now; output = output.new; answer = answer.new }
        ≡ handed (plain federation) 2 (call.board ranks.now (length output.old)) [] (plain_store_of slots.now counts.now tallies.now) output.old answer.old }
{
    if answer.len() < 2 {
        return 255;
    }
    call_handed::hand(
        federation_calls::board(slots, counts, tallies, ranks, output).into(),
        2,
        answer,
    )
}

// Makes the store the sheet that has its slots and its size parameter, if there is one.
pub fn mend(slots: &[u64], counts: &mut [u32], tallies: &mut [u32], answer: &mut [u64]) -> usize
    ensures { record { number = result; store = plain_store_of slots.now counts.new tallies.new; output = []; answer = answer.new }
        ≡ handed_over 2 (mended (plain_view federation) (plain_store federation) (plain_store_of slots.now counts.old tallies.old))
        (plain_store_of slots.now counts.old tallies.old) [] answer.old }
{
    if answer.len() < 2 {
        return 255;
    }
    call_handed::hand(
        federation_mend::mend(slots, counts, tallies).into(),
        2,
        answer,
    )
}
