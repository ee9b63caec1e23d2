// A draw among m faces from a tape of 32-bit words, in three layers: `draw_at` has a number for the place, `draw_and_advance` a place that is
// lent, and `draw`, which the sheet draws by, plain parameters again.
#![tactic(auto)]

ghost use Rattle.std.specs.Prelude.{◌≡◌};
ghost use Rattle.draw.specs.Draw.{draw_at, tape_place_after, face_of, drawn_of};

// What a draw gives: a face, and the place after the last word read. Where the tape ended first, a draw gives none.
#[derive(Clone, Copy)]
pub struct Drawn {
    pub face: usize,
    pub next: usize,
}

// The place on the tape after a draw from the place `at`: an ended draw leaves it where it was.
pub fn tape_place(drawn: Option<Drawn>, at: usize) -> usize
    ensures { result ≡ tape_place_after at drawn }
{
    drawn.map_or(at, |d| d.next)
}

// A place on the tape, which moves on with every word read.
#[derive(Clone, Copy)]
pub struct TapePlace {
    pub at: usize,
}

// A draw among m faces by the words of the tape from the place `at` on: the place is a number in and out. A word is below m * (2^32 / m)
// exactly where its multiple of m, word - word % m, is at most 2^32 - m, so that each word takes one division.
fn draw_at(tape: &[u32], at: usize, m: usize) -> Option<Drawn>
    ensures { result ≡ draw_at m tape.now at }
{
    if m == 1 {
        return Some(Drawn { face: 0, next: at });
    }
    if m == 0 {
        return None;
    }
    if m > 4294967296 {
        return None;
    }
    let last = 4294967296 - m;
    for i in at..tape.len() {
        let word = tape[i] as usize;
        let face = word % m;
        if word - face <= last {
            return Some(Drawn { face, next: i + 1 });
        }
    }
    None
}

// A draw from a place that is lent: it moves on past the words read, and where the tape ends it stays what it was before the draw.
pub fn draw_and_advance(tape: &[u32], place: &mut TapePlace, m: usize) -> Option<usize>
    ensures { (result ≡ face_of (draw_at m tape.now place.old.at))
        × (place.new.at ≡ tape_place_after place.old.at (draw_at m tape.now place.old.at)) }
{
    let drawn = draw_at(tape, place.at, m);
    place.at = tape_place(drawn, place.at);
    drawn.map(|d| d.face)
}

// The draw with this face and the place after it; none where the tape ended.
fn with_place(face: Option<usize>, after: usize) -> Option<Drawn>
    ensures { result ≡ drawn_of after face }
{
    face.map(|face| Drawn { face, next: after })
}

// The same through plain parameters, so that a caller needs no reference to a struct: the sheet draws by this.
pub fn draw(tape: &[u32], at: usize, m: usize) -> Option<Drawn>
    ensures { result ≡ draw_at m tape.now at }
{
    let mut place = TapePlace { at };
    let face = draw_and_advance(tape, &mut place, m);
    with_place(face, place.at)
}
