// What the program does with an insert and a delete, whose words are read off the tape, and the answers to them.
#![tactic(auto)]

ghost use Rattle.std.specs.Prelude.{[], ◌≤◌, length, take};
ghost use Rattle.call_outcomes.specs.Outcome.{outcome};
ghost use Rattle.call_outcomes.specs.PlainCalls as call;
ghost use Rattle.call_outcomes.specs.Plain.{plain, plain_store_of};
ghost use Rattle.call_outcomes.specs.Clubs.{clubs};
ghost use Rattle.frame_answers.specs.Step.{changed_by, changed};
ghost use Rattle.frame_answers.specs.Gives.{kept_of, Gives};

use call_outcomes::Returned;
use frame_answers::Stepped;
use tree_rules::Change;

// The answer to a call that may have read words of the tape.
fn change_answer(
    kind: u64,
    back: Returned,
    slots: &[u64],
    counts: &[u16],
    tallies: &[u16],
    tape: &mut [u32],
    waiting: usize,
    output: &mut [u8],
) -> Stepped
    requires words { back.second ≤ waiting }
    requires waiting { waiting ≤ length tape.old }
    requires room { 9 ≤ length output.old }
    ensures { Gives
        (changed_by kind (kept_of (plain_store_of slots.now counts.now tallies.now) tape.old waiting) back
        (plain_store_of slots.now counts.now tallies.now))
        output.old result.bytes result.waiting (plain_store_of slots.now counts.now tallies.now) tape.new output.new }
{
    let words = back.second;
    frame_tape::read_off(tape, words);
    let bytes = frame_answers::answer(output, kind, back.number, counts);
    Stepped {
        bytes: bytes,
        waiting: waiting - words,
    }
}

// The call that makes the change, and the answer to it.
fn change_line(
    kind: u64,
    change: Change,
    entry: u64,
    slots: &mut [u64],
    counts: &mut [u16],
    tallies: &mut [u16],
    tape: &mut [u32],
    waiting: usize,
    output: &mut [u8],
) -> Stepped
    requires waiting { waiting ≤ length tape.old }
    requires room { 9 ≤ length output.old }
    ensures { Gives
        (changed kind (kept_of (plain_store_of slots.old counts.old tallies.old) tape.old waiting)
        (outcome (plain clubs) (call.changing change entry) (take waiting tape.old) (plain_store_of slots.old counts.old tallies.old) []))
        output.old result.bytes result.waiting (plain_store_of slots.new counts.new tallies.new) tape.new output.new }
{
    let back = Returned::from(sheet_calls::make_change(
        slots,
        counts,
        tallies,
        change,
        entry,
        &tape[..waiting],
    ));
    change_answer(kind, back, slots, counts, tallies, tape, waiting, output)
}

// An insert.
pub fn insert_line(
    slots: &mut [u64],
    counts: &mut [u16],
    tallies: &mut [u16],
    tape: &mut [u32],
    waiting: usize,
    rank: usize,
    entry: u64,
    output: &mut [u8],
) -> Stepped
    requires waiting { waiting ≤ length tape.old }
    requires room { 9 ≤ length output.old }
    ensures { Gives
        (changed 129 (kept_of (plain_store_of slots.old counts.old tallies.old) tape.old waiting)
        (outcome (plain clubs) (call.insert rank entry) (take waiting tape.old) (plain_store_of slots.old counts.old tallies.old) []))
        output.old result.bytes result.waiting (plain_store_of slots.new counts.new tallies.new) tape.new output.new }
{
    change_line(
        129,
        Change::Insert(rank),
        entry,
        slots,
        counts,
        tallies,
        tape,
        waiting,
        output,
    )
}

// A delete.
pub fn delete_line(
    slots: &mut [u64],
    counts: &mut [u16],
    tallies: &mut [u16],
    tape: &mut [u32],
    waiting: usize,
    rank: usize,
    output: &mut [u8],
) -> Stepped
    requires waiting { waiting ≤ length tape.old }
    requires room { 9 ≤ length output.old }
    ensures { Gives
        (changed 130 (kept_of (plain_store_of slots.old counts.old tallies.old) tape.old waiting)
        (outcome (plain clubs) (call.delete rank) (take waiting tape.old) (plain_store_of slots.old counts.old tallies.old) []))
        output.old result.bytes result.waiting (plain_store_of slots.new counts.new tallies.new) tape.new output.new }
{
    change_line(
        130,
        Change::Delete(rank),
        0,
        slots,
        counts,
        tallies,
        tape,
        waiting,
        output,
    )
}
