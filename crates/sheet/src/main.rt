// The program `sheet`: reads frames from standard input, a line each, and answers them on standard output.
#![tactic(auto)]

ghost use Rattle.std.specs.Prelude.{◌≡◌, IfOk};
ghost use Rattle.call_outcomes.specs.Plain.{plain_store_of};
ghost use Rattle.frame_answers.specs.Gives.{kept_of};
ghost use Rattle.frame_chunks.specs.Chunk.{standing, end, chunk_outcome};
ghost use Rattle.sheet.specs.Within.{Within};

use std::io;
use std::io::Read;

// The slots of the store.
const SLOTS: usize = 4224;

// The counts of the store.
const COUNTS: usize = 256;

// The tallies of the store.
const TALLIES: usize = 256;

// The words of the tape that may wait.
const TAPE: usize = 1024;

// The line buffer has room for so many bytes.
const LINE: usize = 256;

// The input has room for so many bytes.
const INPUT: usize = 65536;

// The output has room for so many bytes.
const OUTPUT: usize = 262144;

// How many bytes of the line that is still open and words of the tape are held.
#[derive(Clone, Copy)]
struct State {
    have: usize,
    waiting: usize,
}

// Answers the lines that end in the chunk, and writes the answers; an error where a write fails.
fn answer_chunk(
    rt: &impl Print,
    chunk: &[u8],
    line: &mut [u8; LINE],
    slots: &mut [u64; SLOTS],
    counts: &mut [u16; COUNTS],
    tallies: &mut [u16; TALLIES],
    tape: &mut [u32; TAPE],
    output: &mut [u8; OUTPUT],
    before: State,
) -> io::Result<State>
    requires held { Within before }
    ensures { IfOk result (λ after. Within after
        × (end line.new after.have (kept_of (plain_store_of slots.new counts.new tallies.new) tape.new after.waiting)
        ≡ (chunk_outcome chunk.now
        (standing 0 line.old before.have (kept_of (plain_store_of slots.old counts.old tallies.old) tape.old before.waiting))).end)) }
{
    let mut have = before.have;
    let mut waiting = before.waiting;
    let mut from = 0;
    while from < chunk.len() {
        let reached = frame_chunks::answer_lines(
            chunk, from, line, have, slots, counts, tallies, tape, waiting, output,
        );
        have = reached.have;
        waiting = reached.waiting;
        from = reached.next;
        rt.write_all(&output[..reached.bytes])?;
    }
    Ok(State { have, waiting })
}

// Answers every line of the input; an error where a write fails. The answers to a chunk are written before the next one is read. The end of
// the input ends a line that is still open. A proved loop has to end, so this one has a number of turns that no run uses up.
fn run(
    rt: &(impl Input + Print),
    slots: &mut [u64; SLOTS],
    counts: &mut [u16; COUNTS],
    tallies: &mut [u16; TALLIES],
    tape: &mut [u32; TAPE],
    line: &mut [u8; LINE],
    input: &mut [u8; INPUT],
    output: &mut [u8; OUTPUT],
) -> io::Result<()> {
    let mut state = State {
        have: 0,
        waiting: 0,
    };
    let mut reader = rt.reader();
    for _ in 0..u64::MAX {
        let bytes = reader.read(input).unwrap_or(0);
        if bytes == 0 {
            break;
        }
        let chunk = &input[..bytes];
        state = answer_chunk(rt, chunk, line, slots, counts, tallies, tape, output, state)?;
    }
    if 0 < state.have {
        answer_chunk(rt, b"\n", line, slots, counts, tallies, tape, output, state)?;
    }
    Ok(())
}

// A store of zeros is the empty sheet, and no word of the tape waits. Where a write fails the program ends, as it does at the end of the input.
fn main(rt: HostRuntime) {
    let mut slots = [0u64; SLOTS];
    let mut counts = [0u16; COUNTS];
    let mut tallies = [0u16; TALLIES];
    let mut tape = [0u32; TAPE];
    let mut line = [0u8; LINE];
    let mut input = [0u8; INPUT];
    let mut output = [0u8; OUTPUT];
    let _ = run(
        &rt,
        &mut slots,
        &mut counts,
        &mut tallies,
        &mut tape,
        &mut line,
        &mut input,
        &mut output,
    );
}
