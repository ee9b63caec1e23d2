// The calls of the clubs' timed sheets for programs in C: the number of the cause is returned, and two or three values stand in an answer slice.
#![tactic(auto)]

ghost use Rattle.std.specs.Prelude.{◌≡◌, [], length};
ghost use Rattle.call_outcomes.specs.Kind.{clear};
ghost use Rattle.call_outcomes.specs.Clubs.{clubs};
ghost use Rattle.call_mend.specs.Mending.{mended};
ghost use Rattle.call_mend.specs.Views.{timed_store};
ghost use Rattle.call_handed.specs.Handed.{handed_over, handed};
ghost use Rattle.call_timed.specs.Timed as call;
ghost use Rattle.call_timed.specs.Timed.{timed_view, timed, timed_store_of};

// Makes any contents the empty timed sheet.
#[unsafe(no_mangle)]
pub extern "C" fn timed_clear(
    slots: &mut [u64],
    counts: &mut [u16],
    tallies: &mut [u16],
    balance: &mut [u64],
    answer: &mut [u64],
) -> usize
    ensures { record { number = result; store = timed_store_of slots.new counts.new tallies.new balance.new; output = []; answer = answer.new }
        ≡ handed (timed clubs) 2 clear [] (timed_store_of slots.old counts.old tallies.old balance.old) [] answer.old }
{
    if answer.len() < 2 {
        return 255;
    }
    call_handed::hand(
        timed_calls::clear(slots, counts, tallies, balance).into(),
        2,
        answer,
    )
}

// Puts the entry in at the rank of its key.
#[unsafe(no_mangle)]
pub extern "C" fn timed_insert(
    slots: &mut [u64],
    counts: &mut [u16],
    tallies: &mut [u16],
    balance: &mut [u64],
    entry: u64,
    tape: &[u32],
    answer: &mut [u64],
) -> usize
    ensures { record { number = result; store = timed_store_of slots.new counts.new tallies.new balance.new; output = []; answer = answer.new }
        ≡ handed (timed clubs) 2 (call.insert entry) tape.now (timed_store_of slots.old counts.old tallies.old balance.old) [] answer.old }
{
    if answer.len() < 2 {
        return 255;
    }
    call_handed::hand(
        timed_calls::insert(slots, counts, tallies, balance, entry, tape).into(),
        2,
        answer,
    )
}

// Takes the entry at the rank out.
#[unsafe(no_mangle)]
pub extern "C" fn timed_delete(
    slots: &mut [u64],
    counts: &mut [u16],
    tallies: &mut [u16],
    balance: &mut [u64],
    rank: usize,
    tape: &[u32],
    answer: &mut [u64],
) -> usize
    ensures { record { number = result; store = timed_store_of slots.new counts.new tallies.new balance.new; output = []; answer = answer.new }
        ≡ handed (timed clubs) 2 (call.delete rank) tape.now (timed_store_of slots.old counts.old tallies.old balance.old) [] answer.old }
{
    if answer.len() < 2 {
        return 255;
    }
    call_handed::hand(
        timed_calls::delete(slots, counts, tallies, balance, rank, tape).into(),
        2,
        answer,
    )
}

// Whether an entry with the key is there, and its rank, or the rank at which it would stand.
#[unsafe(no_mangle)]
pub extern "C" fn timed_find(
    slots: &[u64],
    counts: &[u16],
    tallies: &[u16],
    balance: &[u64],
    entry: u64,
    answer: &mut [u64],
) -> usize
    ensures { record { number = result; store = timed_store_of slots.now counts.now tallies.now balance.now; output = []; answer = answer.new }
        ≡ handed (timed clubs) 2 (call.find entry) [] (timed_store_of slots.now counts.now tallies.now balance.now) [] answer.old }
{
    if answer.len() < 2 {
        return 255;
    }
    call_handed::hand(
        timed_calls::find(slots, counts, tallies, balance, entry).into(),
        2,
        answer,
    )
}

// Copies the entries of ranks first to last to the front of the output.
#[unsafe(no_mangle)]
pub extern "C" fn timed_read(
    slots: &[u64],
    counts: &[u16],
    tallies: &[u16],
    balance: &[u64],
    first: usize,
    last: usize,
    output: &mut [u64],
    answer: &mut [u64],
) -> usize
    ensures { record { number = result; store = timed_store_of slots.now counts.now tallies.now balance.now; output = output.new; answer = answer.new }
        ≡ handed (timed clubs) 2 (call.read first last (length output.old)) [] (timed_store_of slots.now counts.now tallies.now balance.now) output.old answer.old }
{
    if answer.len() < 2 {
        return 255;
    }
    call_handed::hand(
        timed_calls::read(slots, counts, tallies, balance, first, last, output).into(),
        2,
        answer,
    )
}

// The place of the entry at the rank, the sum of the places of her tied group, and the number of its boats; 0, 0 and 1 for a retired boat.
#[unsafe(no_mangle)]
pub extern "C" fn timed_place(
    slots: &[u64],
    counts: &[u16],
    tallies: &[u16],
    balance: &[u64],
    rank: usize,
    answer: &mut [u64],
) -> usize
    ensures { record { number = result; store = timed_store_of slots.now counts.now tallies.now balance.now; output = []; answer = answer.new }
        ≡ handed (timed clubs) 3 (call.place rank) [] (timed_store_of slots.now counts.now tallies.now balance.now) [] answer.old }
{
    if answer.len() < 3 {
        return 255;
    }
    call_handed::hand(
        timed_calls::place(slots, counts, tallies, balance, rank).into(),
        3,
        answer,
    )
}

// The number of entries of a timed sheet.
#[unsafe(no_mangle)]
pub extern "C" fn timed_check(
    slots: &[u64],
    counts: &[u16],
    tallies: &[u16],
    balance: &[u64],
    answer: &mut [u64],
) -> usize
    ensures { record { number = result; store = timed_store_of slots.now counts.now tallies.now balance.now; output = []; answer = answer.new }
        ≡ handed (timed clubs) 2 call.check [] (timed_store_of slots.now counts.now tallies.now balance.now) [] answer.old }
{
    if answer.len() < 2 {
        return 255;
    }
    call_handed::hand(
        timed_calls::check(slots, counts, tallies, balance).into(),
        2,
        answer,
    )
}

// Copies the entries at the ranks, at most 64 that do not fall, to the front of the output.
#[unsafe(no_mangle)]
pub extern "C" fn timed_board(
    slots: &[u64],
    counts: &[u16],
    tallies: &[u16],
    balance: &[u64],
    ranks: &[u64],
    output: &mut [u64],
    answer: &mut [u64],
) -> usize
    ensures { record { number = result; store = timed_store_of slots.now counts.now tallies.now balance.now; output = output.new; answer = answer.new }
        ≡ handed (timed clubs) 2 (call.board ranks.now (length output.old)) [] (timed_store_of slots.now counts.now tallies.now balance.now) output.old answer.old }
{
    if answer.len() < 2 {
        return 255;
    }
    call_handed::hand(
        timed_calls::board(slots, counts, tallies, balance, ranks, output).into(),
        2,
        answer,
    )
}

// Makes the store the timed sheet that has its slots and its size parameter, if there is one.
#[unsafe(no_mangle)]
pub extern "C" fn timed_mend(
    slots: &[u64],
    counts: &mut [u16],
    tallies: &mut [u16],
    balance: &mut [u64],
    answer: &mut [u64],
) -> usize
    ensures { record { number = result; store = timed_store_of slots.now counts.new tallies.new balance.new; output = []; answer = answer.new }
        ≡ handed_over 2 (mended (timed_view clubs) (timed_store clubs) (timed_store_of slots.now counts.old tallies.old balance.old))
        (timed_store_of slots.now counts.old tallies.old balance.old) [] answer.old }
{
    if answer.len() < 2 {
        return 255;
    }
    call_handed::hand(
        timed_mend::mend(slots, counts, tallies, balance).into(),
        2,
        answer,
    )
}
