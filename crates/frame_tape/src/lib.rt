// The words of the tape that wait: words that were read leave it, and those of a tape line go behind the others.
#![tactic(auto)]

ghost use Rattle.std.specs.Prelude.{◌≡◌, ◌++◌, ◌+◌, ◌≤◌, length, take, drop};
ghost use Rattle.frame_lines.specs.Frame.{frame_of, words_of};
ghost use Rattle.frame_tape.specs.Tape.{read_off, line_words};

// The words that were read leave the tape: the others move to its front, and zeros follow them.
pub fn read_off(tape: &mut [u32], words: usize)
    requires { words ≤ length tape.old }
    ensures { tape.new ≡ read_off words tape.old }
{
    for i in 0..tape.len() {
        tape[i] = tape.get(i + words).copied().unwrap_or(0);
    }
}

// The words of a tape line go behind those that wait.
pub fn add_words(line: &[u8], words: usize, tape: &mut [u32], waiting: usize)
    requires line { words_of (frame_of line.now) ≡ words }
    requires room { waiting + words ≤ length tape.old }
    ensures { tape.new
        ≡ take waiting tape.old ++ (line_words line.now 0 words ++ drop (waiting + words) tape.old) }
{
    for k in 0..words {
        tape[waiting + k] = frame_lines::word_at(line, k);
    }
}
