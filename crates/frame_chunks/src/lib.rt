// The lines that end in a chunk of the input, answered one after the other.
#![tactic(auto)]

ghost use Rattle.std.specs.Prelude.{◌+◌, ◌≤◌, ◌<◌, length, take};
ghost use Rattle.call_outcomes.specs.Plain.{plain_store_of};
ghost use Rattle.frame_answers.specs.Step.{TapeReady, longest};
ghost use Rattle.frame_answers.specs.Gives.{kept_of};
ghost use Rattle.frame_chunks.specs.Chunk.{standing, Held, AnswersLine, AnswersLines};

use frame_answers::Stepped;

// The longest answer, a print of the largest sheet, has so many bytes.
const LONGEST: usize = 69012;

// Where to go on in the chunk, how many bytes of a line that is still open and words of the tape are held, and how many bytes of answers
// stand at the front of the output.
#[derive(Clone, Copy)]
pub struct Progress {
    pub next: usize,
    pub have: usize,
    pub waiting: usize,
    pub bytes: usize,
}

// Answers the line that the first `have` bytes of the line buffer are. The answer goes behind the first `at` bytes of the output.
fn answer_line(
    line: &[u8],
    have: usize,
    slots: &mut [u64],
    counts: &mut [u16],
    tallies: &mut [u16],
    tape: &mut [u32],
    waiting: usize,
    output: &mut [u8],
    at: usize,
) -> Stepped
    requires line { have ≤ length line.now }
    requires tape { TapeReady (kept_of (plain_store_of slots.old counts.old tallies.old) tape.old waiting) }
    requires room { at + longest ≤ length output.old }
    ensures { AnswersLine (take have line.now) (kept_of (plain_store_of slots.old counts.old tallies.old) tape.old waiting) output.old at
        result.bytes (kept_of (plain_store_of slots.new counts.new tallies.new) tape.new result.waiting) output.new }
{
    frames::step(
        &line[..have],
        slots,
        counts,
        tallies,
        tape,
        waiting,
        &mut output[at..],
    )
}

// Goes on to the next LF and, where there is one, answers the line that it ends behind the answers that are held.
fn answer_next(
    chunk: &[u8],
    line: &mut [u8],
    slots: &mut [u64],
    counts: &mut [u16],
    tallies: &mut [u16],
    tape: &mut [u32],
    output: &mut [u8],
    before: Progress,
) -> Progress
    requires held { Held (standing before.next line.old before.have (kept_of (plain_store_of slots.old counts.old tallies.old) tape.old before.waiting)) }
    requires more { before.next < length chunk.now }
    requires room { before.bytes + longest ≤ length output.old }
    ensures { AnswersLines chunk.now
        (standing before.next line.old before.have (kept_of (plain_store_of slots.old counts.old tallies.old) tape.old before.waiting))
        output.old before.bytes
        (standing result.next line.new result.have (kept_of (plain_store_of slots.new counts.new tallies.new) tape.new result.waiting))
        output.new result.bytes × (before.next < result.next) }
{
    let collected = frame_input::collect(chunk, before.next, line, before.have);
    if !collected.ended {
        return Progress {
            next: collected.next,
            have: collected.have,
            waiting: before.waiting,
            bytes: before.bytes,
        };
    }
    let at = before.bytes;
    let stepped = answer_line(
        line,
        collected.have,
        slots,
        counts,
        tallies,
        tape,
        before.waiting,
        output,
        at,
    );
    Progress {
        next: collected.next,
        have: 0,
        waiting: stepped.waiting,
        bytes: at + stepped.bytes,
    }
}

// Answers the lines that end in the chunk from the place `from` on, as long as the output has room for the longest answer. The answers
// stand at the front of the output.
pub fn answer_lines(
    chunk: &[u8],
    from: usize,
    line: &mut [u8],
    have: usize,
    slots: &mut [u64],
    counts: &mut [u16],
    tallies: &mut [u16],
    tape: &mut [u32],
    waiting: usize,
    output: &mut [u8],
) -> Progress
    requires held { Held (standing from line.old have (kept_of (plain_store_of slots.old counts.old tallies.old) tape.old waiting)) }
    ensures { AnswersLines chunk.now
        (standing from line.old have (kept_of (plain_store_of slots.old counts.old tallies.old) tape.old waiting))
        output.old 0
        (standing result.next line.new result.have (kept_of (plain_store_of slots.new counts.new tallies.new) tape.new result.waiting))
        output.new result.bytes
        × (from < length chunk.now → longest ≤ length output.old → from < result.next) }
{
    let mut reached = Progress {
        next: from,
        have: have,
        waiting: waiting,
        bytes: 0,
    };
    while reached.next < chunk.len() {
        if output.len() - reached.bytes < LONGEST {
            return reached;
        }
        reached = answer_next(chunk, line, slots, counts, tallies, tape, output, reached);
    }
    reached
}
