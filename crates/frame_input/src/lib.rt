// The lines of an input that comes in chunks, collected one after the other into a line buffer.
#![tactic(auto)]

ghost use Rattle.std.specs.Prelude.{◌≡◌};
ghost use Rattle.frame_input.specs.Lines.{left, collecting};

// Where to go on in the chunk, how many bytes the line buffer holds, and whether the line has ended.
#[derive(Clone, Copy)]
pub struct Collected {
    pub next: usize,
    pub have: usize,
    pub ended: bool,
}

// Takes the bytes of `input` from the place `from` on, up to the first LF, which it passes over, or to the end. They are put behind the
// `have` bytes that the line buffer holds, as far as it has room; further ones are dropped.
pub fn collect(input: &[u8], from: usize, line: &mut [u8], have: usize) -> Collected
    ensures { left result line.new ≡ collecting input.now from line.old have }
{
    let mut at = from;
    let mut held = have;
    while at < input.len() {
        let byte = input[at];
        at += 1;
        if byte == 10 {
            return Collected {
                next: at,
                have: held,
                ended: true,
            };
        }
        if held < line.len() {
            line[held] = byte;
            held += 1;
        }
    }
    Collected {
        next: at,
        have: held,
        ended: false,
    }
}
