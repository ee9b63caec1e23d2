// A frame, answered by its kind.
#![tactic(auto)]

ghost use Rattle.std.specs.Prelude.{◌≡◌, ◌≤◌, length};
ghost use Rattle.call_outcomes.specs.Plain.{plain_store_of};
ghost use Rattle.frame_lines.specs.Frame.{frame_of};
ghost use Rattle.frame_tape.specs.Tape.{most_waiting};
ghost use Rattle.frame_answers.specs.Step.{answer_to, longest};
ghost use Rattle.frame_answers.specs.Gives.{kept_of, Gives};

use call_outcomes::Cause;
use frame_answers::Stepped;
use frame_lines::Frame;

// Answers a frame, or a line that is none.
pub fn answer_frame(
    frame: Option<Frame>,
    line: &[u8],
    slots: &mut [u64],
    counts: &mut [u16],
    tallies: &mut [u16],
    tape: &mut [u32],
    waiting: usize,
    output: &mut [u8],
) -> Stepped
    requires frame { frame ≡ frame_of line.now }
    requires tape { length tape.old ≡ most_waiting }
    requires waiting { waiting ≤ most_waiting }
    requires room { longest ≤ length output.old }
    ensures { Gives
        (answer_to frame line.now (kept_of (plain_store_of slots.old counts.old tallies.old) tape.old waiting))
        output.old result.bytes result.waiting (plain_store_of slots.new counts.new tallies.new) tape.new output.new }
{
    match frame {
        Some(Frame::Insert { rank, entry }) => {
            frame_changes::insert_line(slots, counts, tallies, tape, waiting, rank, entry, output)
        }
        Some(Frame::Delete { rank }) => {
            frame_changes::delete_line(slots, counts, tallies, tape, waiting, rank, output)
        }
        Some(Frame::Tape { words }) => frame_answers::tape_line(
            line, words, slots, counts, tallies, tape, waiting, output,
        ),
        Some(Frame::Read { first, last }) => {
            let bytes = frame_answers::read_line(slots, counts, tallies, first, last, output);
            Stepped { bytes, waiting }
        }
        Some(Frame::Print) => {
            let bytes = frame_print::print_line(slots, counts, tallies, output);
            Stepped { bytes, waiting }
        }
        Some(Frame::Clear) => {
            let bytes = frame_answers::clear_line(slots, counts, tallies, output);
            Stepped { bytes, waiting }
        }
        Some(Frame::Place { rank }) => {
            let bytes = frame_answers::place_line(slots, counts, tallies, rank, output);
            Stepped { bytes, waiting }
        }
        None => {
            let number = usize::from(Cause::NoFrame);
            let bytes = frame_answers::answer(output, 255, number, counts);
            Stepped { bytes, waiting }
        }
    }
}
