// What the program does with the frames that read no word of the tape, but a print, and the answers to them.
#![tactic(auto)]

ghost use Rattle.std.specs.Prelude.{◌≡◌, [], ◌≤◌, length, get_or, replicate};
ghost use Rattle.call_outcomes.specs.Kind.{clear};
ghost use Rattle.call_outcomes.specs.Outcome.{outcome};
ghost use Rattle.call_outcomes.specs.PlainCalls as call;
ghost use Rattle.call_outcomes.specs.Plain.{plain, plain_store_of};
ghost use Rattle.call_outcomes.specs.Clubs.{clubs};
ghost use Rattle.frame_lines.specs.Frame.{frame_of, words_of};
ghost use Rattle.frame_replies.specs.Reply.{brief, line_of};
ghost use Rattle.frame_replies.specs.Wrote.{Wrote};
ghost use Rattle.frame_tape.specs.Tape.{most_waiting};
ghost use Rattle.frame_answers.specs.Step.{read_line, place_line, taped};
ghost use Rattle.frame_answers.specs.Gives.{kept_of, Gives, ClearGives};

use call_outcomes::{Cause, Returned};

// What a step gives: how many bytes of answer stand at the front of the output, and how many words wait now.
#[derive(Clone, Copy)]
pub struct Stepped {
    pub bytes: usize,
    pub waiting: usize,
}

// N, which count 1 holds.
pub fn entry_count(counts: &[u16]) -> u64
    ensures { result ≡ get_or counts.now 1 0 }
{
    if counts.len() < 2 {
        return 0;
    }
    counts[1] as u64
}

// An answer of the first byte, the number of the cause and N.
pub fn answer(output: &mut [u8], kind: u64, number: usize, counts: &[u16]) -> usize
    requires { 9 ≤ length output.old }
    ensures { Wrote output.old 0 (line_of (brief kind number (get_or counts.now 1 0))) output.new result }
{
    let n = entry_count(counts);
    frame_replies::put_brief(output, 0, kind, number as u64, n)
}

// A read of at most 64 entries.
pub fn read_line(
    slots: &[u64],
    counts: &[u16],
    tallies: &[u16],
    first: usize,
    last: usize,
    output: &mut [u8],
) -> usize
    requires { 1033 ≤ length output.old }
    ensures { Wrote output.old 0
        (line_of (read_line (outcome (plain clubs) (call.read first last 64) [] (plain_store_of slots.now counts.now tallies.now) (replicate 64 0))
        (plain_store_of slots.now counts.now tallies.now)))
        output.new result }
{
    let mut list = [0u64; 64];
    let back = Returned::from(sheet_calls::read(slots, counts, tallies, first, last, &mut list));
    let number = back.number;
    if number != 0 {
        return answer(output, 131, number, counts);
    }
    let count = back.first;
    let n = entry_count(counts);
    frame_replies::put_read(output, 0, n, &list[..count])
}

// A place.
pub fn place_line(
    slots: &[u64],
    counts: &[u16],
    tallies: &[u16],
    rank: usize,
    output: &mut [u8],
) -> usize
    requires { 25 ≤ length output.old }
    ensures { Wrote output.old 0
        (line_of (place_line (outcome (plain clubs) (call.place rank) [] (plain_store_of slots.now counts.now tallies.now) [])
        (plain_store_of slots.now counts.now tallies.now)))
        output.new result }
{
    let back = Returned::from(sheet_calls::place(slots, counts, tallies, rank));
    let number = back.number;
    if number != 0 {
        return answer(output, 135, number, counts);
    }
    let n = entry_count(counts);
    frame_replies::put_place(
        output,
        0,
        n,
        back.first as u64,
        back.second as u64,
        back.third as u64,
    )
}

// A clear.
pub fn clear_line(
    slots: &mut [u64],
    counts: &mut [u16],
    tallies: &mut [u16],
    output: &mut [u8],
) -> usize
    requires { 9 ≤ length output.old }
    ensures { ClearGives (outcome (plain clubs) clear [] (plain_store_of slots.old counts.old tallies.old) [])
        output.old result (plain_store_of slots.new counts.new tallies.new) output.new }
{
    let back = Returned::from(sheet_calls::clear(slots, counts, tallies));
    answer(output, 134, back.number, counts)
}

// A tape line of this many words.
pub fn tape_line(
    line: &[u8],
    words: usize,
    slots: &[u64],
    counts: &[u16],
    tallies: &[u16],
    tape: &mut [u32],
    waiting: usize,
    output: &mut [u8],
) -> Stepped
    requires line { words_of (frame_of line.now) ≡ words }
    requires tape { length tape.old ≡ most_waiting }
    requires waiting { waiting ≤ most_waiting }
    requires room { 9 ≤ length output.old }
    ensures { Gives
        (taped line.now words (kept_of (plain_store_of slots.now counts.now tallies.now) tape.old waiting))
        output.old result.bytes result.waiting (plain_store_of slots.now counts.now tallies.now) tape.new output.new }
{
    if tape.len() - waiting < words {
        let full = usize::from(Cause::TapeFull);
        let refused = answer(output, 132, full, counts);
        return Stepped {
            bytes: refused,
            waiting: waiting,
        };
    }
    frame_tape::add_words(line, words, tape, waiting);
    let bytes = answer(output, 132, 0, counts);
    Stepped {
        bytes: bytes,
        waiting: waiting + words,
    }
}
