// The federation's calls, plain and timed, for programs in C: the number of the cause is returned, and two or three values stand in an answer slice.
#![tactic(auto)]

ghost use Rattle.std.specs.Prelude.{◌≡◌, [], length};
ghost use Rattle.call_outcomes.specs.Kind.{clear};
ghost use Rattle.call_outcomes.specs.PlainCalls as call;
ghost use Rattle.call_outcomes.specs.Plain.{plain_view, plain, plain_store_of};
ghost use Rattle.call_outcomes.specs.Federation.{federation};
ghost use Rattle.call_mend.specs.Mending.{mended};
ghost use Rattle.call_mend.specs.Views.{plain_store, timed_store};
ghost use Rattle.call_handed.specs.Handed.{handed_over, handed};
ghost use Rattle.call_timed.specs.Timed as timedCall;
ghost use Rattle.call_timed.specs.Timed.{timed_view, timed, timed_store_of};

use tree_rules::Change;

// Makes any contents the empty sheet.
#[unsafe(no_mangle)]
pub extern "C" fn federation_clear(
    slots: &mut [u64],
    counts: &mut [u32],
    tallies: &mut [u32],
    answer: &mut [u64],
) -> usize
    ensures { record { number = result; store = plain_store_of slots.new counts.new tallies.new; output = []; answer = answer.new }
        ≡ handed (plain federation) 2 clear [] (plain_store_of slots.old counts.old tallies.old) [] answer.old }
{
    federation_handed::clear(slots, counts, tallies, answer)
}

// Puts the entry in at the rank.
#[unsafe(no_mangle)]
pub extern "C" fn federation_insert(
    slots: &mut [u64],
    counts: &mut [u32],
    tallies: &mut [u32],
    rank: usize,
    entry: u64,
    tape: &[u32],
    answer: &mut [u64],
) -> usize
    ensures { record { number = result; store = plain_store_of slots.new counts.new tallies.new; output = []; answer = answer.new }
        ≡ handed (plain federation) 2 (call.insert rank entry) tape.now (plain_store_of slots.old counts.old tallies.old) [] answer.old }
{
    let change = Change::Insert(rank);
    federation_handed::make_change(slots, counts, tallies, change, entry, tape, answer)
}

// Takes the entry at the rank out.
#[unsafe(no_mangle)]
pub extern "C" fn federation_delete(
    slots: &mut [u64],
    counts: &mut [u32],
    tallies: &mut [u32],
    rank: usize,
    tape: &[u32],
    answer: &mut [u64],
) -> usize
    ensures { record { number = result; store = plain_store_of slots.new counts.new tallies.new; output = []; answer = answer.new }
        ≡ handed (plain federation) 2 (call.delete rank) tape.now (plain_store_of slots.old counts.old tallies.old) [] answer.old }
{
    let change = Change::Delete(rank);
    federation_handed::make_change(slots, counts, tallies, change, 0, tape, answer)
}

// Copies the entries of ranks first to last to the front of the output.
#[unsafe(no_mangle)]
pub extern "C" fn federation_read(
    slots: &[u64],
    counts: &[u32],
    tallies: &[u32],
    first: usize,
    last: usize,
    output: &mut [u64],
    answer: &mut [u64],
) -> usize
    ensures { record { number = result; store = plain_store_of slots.now counts.now tallies.now; output = output.new; answer = answer.new }
        ≡ handed (plain federation) 2 (call.read first last (length output.old)) [] (plain_store_of slots.now counts.now tallies.now) output.old answer.old }
{
    federation_handed::read(slots, counts, tallies, first, last, output, answer)
}

// The place of the entry at the rank, the sum of the places of her tied group, and the number of its boats; 0, 0 and 1 for a retired boat.
#[unsafe(no_mangle)]
pub extern "C" fn federation_place(
    slots: &[u64],
    counts: &[u32],
    tallies: &[u32],
    rank: usize,
    answer: &mut [u64],
) -> usize
    ensures { record { number = result; store = plain_store_of slots.now counts.now tallies.now; output = []; answer = answer.new }
        ≡ handed (plain federation) 3 (call.place rank) [] (plain_store_of slots.now counts.now tallies.now) [] answer.old }
{
    federation_handed::place(slots, counts, tallies, rank, answer)
}

// The number of entries of a sheet.
#[unsafe(no_mangle)]
pub extern "C" fn federation_check(
    slots: &[u64],
    counts: &[u32],
    tallies: &[u32],
    answer: &mut [u64],
) -> usize
    ensures { record { number = result; store = plain_store_of slots.now counts.now tallies.now; output = []; answer = answer.new }
        ≡ handed (plain federation) 2 call.check [] (plain_store_of slots.now counts.now tallies.now) [] answer.old }
{
    federation_handed::check(slots, counts, tallies, answer)
}

// Copies the entries at the ranks, at most 64 that do not fall, to the front of the output.
#[unsafe(no_mangle)]
pub extern "C" fn federation_board(
    slots: &[u64],
    counts: &[u32],
    tallies: &[u32],
    ranks: &[u64],
    output: &mut [u64],
    answer: &mut [u64],
) -> usize
    ensures { record { number = result; store = plain_store_of slots.now counts.now tallies.now; output = output.new; answer = answer.new }
        ≡ handed (plain federation) 2 (call.board ranks.now (length output.old)) [] (plain_store_of slots.now counts.now tallies.now) output.old answer.old }
{
    federation_handed::board(slots, counts, tallies, ranks, output, answer)
}

// Makes the store the sheet that has its slots and its size parameter, if there is one.
#[unsafe(no_mangle)]
pub extern "C" fn federation_mend(
    slots: &[u64],
    counts: &mut [u32],
    tallies: &mut [u32],
    answer: &mut [u64],
) -> usize
    ensures { record { number = result; store = plain_store_of slots.now counts.new tallies.new; output = []; answer = answer.new }
        ≡ handed_over 2 (mended (plain_view federation) (plain_store federation) (plain_store_of slots.now counts.old tallies.old))
        (plain_store_of slots.now counts.old tallies.old) [] answer.old }
{
    federation_handed::mend(slots, counts, tallies, answer)
}

// Makes any contents the empty timed sheet.
#[unsafe(no_mangle)]
pub extern "C" fn federation_timed_clear(
    slots: &mut [u64],
    counts: &mut [u32],
    tallies: &mut [u32],
    balance: &mut [u64],
    answer: &mut [u64],
) -> usize
    ensures { record { number = result; store = timed_store_of slots.new counts.new tallies.new balance.new; output = []; answer = answer.new }
        ≡ handed (timed federation) 2 clear [] (timed_store_of slots.old counts.old tallies.old balance.old) [] answer.old }
{
    federation_timed_handed::clear(slots, counts, tallies, balance, answer)
}

// Puts the entry in at the rank of its key.
#[unsafe(no_mangle)]
pub extern "C" fn federation_timed_insert(
    slots: &mut [u64],
    counts: &mut [u32],
    tallies: &mut [u32],
    balance: &mut [u64],
    entry: u64,
    tape: &[u32],
    answer: &mut [u64],
) -> usize
    ensures { record { number = result; store = timed_store_of slots.new counts.new tallies.new balance.new; output = []; answer = answer.new }
        ≡ handed (timed federation) 2 (timedCall.insert entry) tape.now (timed_store_of slots.old counts.old tallies.old balance.old) [] answer.old }
{
    federation_timed_handed::insert(slots, counts, tallies, balance, entry, tape, answer)
}

// Takes the entry at the rank out.
#[unsafe(no_mangle)]
pub extern "C" fn federation_timed_delete(
    slots: &mut [u64],
    counts: &mut [u32],
    tallies: &mut [u32],
    balance: &mut [u64],
    rank: usize,
    tape: &[u32],
    answer: &mut [u64],
) -> usize
    ensures { record { number = result; store = timed_store_of slots.new counts.new tallies.new balance.new; output = []; answer = answer.new }
        ≡ handed (timed federation) 2 (timedCall.delete rank) tape.now (timed_store_of slots.old counts.old tallies.old balance.old) [] answer.old }
{
    federation_timed_handed::delete(slots, counts, tallies, balance, rank, tape, answer)
}

// Whether an entry with the key is there, and its rank, or the rank at which it would stand.
#[unsafe(no_mangle)]
pub extern "C" fn federation_timed_find(
    slots: &[u64],
    counts: &[u32],
    tallies: &[u32],
    balance: &[u64],
    entry: u64,
    answer: &mut [u64],
) -> usize
    ensures { record { number = result; store = timed_store_of slots.now counts.now tallies.now balance.now; output = []; answer = answer.new }
        ≡ handed (timed federation) 2 (timedCall.find entry) [] (timed_store_of slots.now counts.now tallies.now balance.now) [] answer.old }
{
    federation_timed_handed::find(slots, counts, tallies, balance, entry, answer)
}

// Copies the entries of ranks first to last to the front of the output.
#[unsafe(no_mangle)]
pub extern "C" fn federation_timed_read(
    slots: &[u64],
    counts: &[u32],
    tallies: &[u32],
    balance: &[u64],
    first: usize,
    last: usize,
    output: &mut [u64],
    answer: &mut [u64],
) -> usize
    ensures { record { number = result; store = timed_store_of slots.now counts.now tallies.now balance.now; output = output.new; answer = answer.new }
        ≡ handed (timed federation) 2 (timedCall.read first last (length output.old)) [] (timed_store_of slots.now counts.now tallies.now balance.now) output.old answer.old }
{
    federation_timed_handed::read(slots, counts, tallies, balance, first, last, output, answer)
}

// The place of the entry at the rank, the sum of the places of her tied group, and the number of its boats; 0, 0 and 1 for a retired boat.
#[unsafe(no_mangle)]
pub extern "C" fn federation_timed_place(
    slots: &[u64],
    counts: &[u32],
    tallies: &[u32],
    balance: &[u64],
    rank: usize,
    answer: &mut [u64],
) -> usize
    ensures { record { number = result; store = timed_store_of slots.now counts.now tallies.now balance.now; output = []; answer = answer.new }
        ≡ handed (timed federation) 3 (timedCall.place rank) [] (timed_store_of slots.now counts.now tallies.now balance.now) [] answer.old }
{
    federation_timed_handed::place(slots, counts, tallies, balance, rank, answer)
}

// The number of entries of a timed sheet.
#[unsafe(no_mangle)]
pub extern "C" fn federation_timed_check(
    slots: &[u64],
    counts: &[u32],
    tallies: &[u32],
    balance: &[u64],
    answer: &mut [u64],
) -> usize
    ensures { record { number = result; store = timed_store_of slots.now counts.now tallies.now balance.now; output = []; answer = answer.new }
        ≡ handed (timed federation) 2 timedCall.check [] (timed_store_of slots.now counts.now tallies.now balance.now) [] answer.old }
{
    federation_timed_handed::check(slots, counts, tallies, balance, answer)
}

// Copies the entries at the ranks, at most 64 that do not fall, to the front of the output.
#[unsafe(no_mangle)]
pub extern "C" fn federation_timed_board(
    slots: &[u64],
    counts: &[u32],
    tallies: &[u32],
    balance: &[u64],
    ranks: &[u64],
    output: &mut [u64],
    answer: &mut [u64],
) -> usize
    ensures { record { number = result; store = timed_store_of slots.now counts.now tallies.now balance.now; output = output.new; answer = answer.new }
        ≡ handed (timed federation) 2 (timedCall.board ranks.now (length output.old)) [] (timed_store_of slots.now counts.now tallies.now balance.now) output.old answer.old }
{
    federation_timed_handed::board(slots, counts, tallies, balance, ranks, output, answer)
}

// Makes the store the timed sheet that has its slots and its size parameter, if there is one.
#[unsafe(no_mangle)]
pub extern "C" fn federation_timed_mend(
    slots: &[u64],
    counts: &mut [u32],
    tallies: &mut [u32],
    balance: &mut [u64],
    answer: &mut [u64],
) -> usize
    ensures { record { number = result; store = timed_store_of slots.now counts.new tallies.new balance.new; output = []; answer = answer.new }
        ≡ handed_over 2 (mended (timed_view federation) (timed_store federation) (timed_store_of slots.now counts.old tallies.old balance.old))
        (timed_store_of slots.now counts.old tallies.old balance.old) [] answer.old }
{
    federation_timed_handed::mend(slots, counts, tallies, balance, answer)
}
