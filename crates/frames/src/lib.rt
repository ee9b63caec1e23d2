// The frames of the program: one step on a line, and the step and the reading of a line that `frames_c` exports to programs in C.
#![tactic(auto)]

ghost use Rattle.std.specs.Prelude.{◌≡◌};
ghost use Rattle.call_outcomes.specs.Plain.{plain_store_of};
ghost use Rattle.frame_lines.specs.Frame.{kind_of};
ghost use Rattle.frame_answers.specs.Step.{step_of};
ghost use Rattle.frame_answers.specs.Gives.{kept_of};
ghost use Rattle.frames.specs.FrameStep.{frame_step};

use frame_answers::Stepped;

// The kind of a line of bytes without its LF: the first byte of a frame, or 255 where the line is no frame.
pub fn frame_kind(line: &[u8]) -> u8
    ensures { result ≡ kind_of line.now }
{
    frame_lines::kind_of(line)
}

// Answers a line, given without its LF. The answer stands at the front of the output. The tape has 1,024 words, of which the first
// `waiting` wait; where it has not, or the output is too short for the longest answer, nothing is done and there are no bytes of answer.
pub fn step(
    line: &[u8],
    slots: &mut [u64],
    counts: &mut [u16],
    tallies: &mut [u16],
    tape: &mut [u32],
    waiting: usize,
    output: &mut [u8],
) -> Stepped
    ensures { record { bytes = result.bytes; kept = kept_of (plain_store_of slots.new counts.new tallies.new) tape.new result.waiting; output = output.new }
        ≡ step_of line.now (kept_of (plain_store_of slots.old counts.old tallies.old) tape.old waiting) output.old }
{
    let nothing = Stepped {
        bytes: 0,
        waiting: waiting,
    };
    if output.len() < 69012 {
        return nothing;
    }
    if tape.len() != 1024 {
        return nothing;
    }
    if 1024 < waiting {
        return nothing;
    }
    let frame = frame_lines::decode(line);
    frame_dispatch::answer_frame(frame, line, slots, counts, tallies, tape, waiting, output)
}

// The step for programs in C: the number of words that wait stands in a slice of one number, before the step and after it. Where that
// slice is empty, nothing is done and there are no bytes of answer.
pub fn frame_step(
    line: &[u8],
    slots: &mut [u64],
    counts: &mut [u16],
    tallies: &mut [u16],
    tape: &mut [u32],
    waiting: &mut [u64],
    output: &mut [u8],
) -> usize
    ensures { record { bytes = result; store = plain_store_of slots.new counts.new tallies.new; tape = tape.new; waiting = waiting.new; output = output.new }
        ≡ frame_step line.now (plain_store_of slots.old counts.old tallies.old) tape.old waiting.old output.old }
{
    if waiting.len() < 1 {
        return 0;
    }
    let before = waiting[0] as usize;
    let stepped = step(line, slots, counts, tallies, tape, before, output);
    waiting[0] = stepped.waiting as u64;
    stepped.bytes
}
