// The step and the reading of a line for programs in C.
#![tactic(auto)]

ghost use Rattle.std.specs.Prelude.{◌≡◌};
ghost use Rattle.call_outcomes.specs.Plain.{plain_store_of};
ghost use Rattle.frame_lines.specs.Frame.{kind_of};
ghost use Rattle.frames.specs.FrameStep.{frame_step};

// The kind of a line of bytes without its LF: the first byte of a frame, or 255 where the line is no frame.
#[unsafe(no_mangle)]
pub extern "C" fn frame_kind(line: &[u8]) -> u8
    ensures { result ≡ kind_of line.now }
{
    frames::frame_kind(line)
}

// Answers a line: the number of words that wait stands in a slice of one number, before the step and after it. Where that slice is empty,
// nothing is done and there are no bytes of answer.
#[unsafe(no_mangle)]
pub extern "C" fn frame_step(
    line: &[u8],
    slots: &mut [u64],
    counts: &mut [u16],
    tallies: &mut [u16],
    tape: &mut [u32],
    waiting: &mut [u64],
    output: &mut [u8],
) -> usize
    ensures { record { bytes = result; store = plain_store_of slots.new counts.new tallies.new; tape = tape.new; waiting = waiting.new; output = output.new }
        ≡ frame_step line.now (plain_store_of slots.old counts.old tallies.old) tape.old waiting.old output.old }
{
    frames::frame_step(line, slots, counts, tallies, tape, waiting, output)
}
