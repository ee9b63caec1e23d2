// A line of bytes, without its LF, read as a frame.
#![tactic(auto)]

ghost use Rattle.std.specs.Prelude.{◌≡◌, ◌+◌, ◌<◌, ◌≤◌, length};
ghost use Rattle.frame_lines.specs.Frame.{is_hex_digit, hex_value, is_hex_line, field, of_length, insert_of, delete_of, read_of, tape_of, place_of, form_of, frame_of, kind, kind_of, words_of, word_at};

// What a line says, where it is one of the seven frames. A tape carries the number of its words.
#[derive(Clone, Copy)]
pub enum Frame {
    Insert { rank: usize, entry: u64 },
    Delete { rank: usize },
    Read { first: usize, last: usize },
    Tape { words: usize },
    Print,
    Clear,
    Place { rank: usize },
}

impl Frame {
    // The first byte of a frame.
    pub fn kind(self) -> u8
        ensures { result ≡ kind self }
    {
        match self {
            Frame::Insert { rank: _, entry: _ } => 1,
            Frame::Delete { rank: _ } => 2,
            Frame::Read { first: _, last: _ } => 3,
            Frame::Tape { words: _ } => 4,
            Frame::Print => 5,
            Frame::Clear => 6,
            Frame::Place { rank: _ } => 7,
        }
    }
}

// The byte is a hexadecimal digit in upper case.
fn is_hex_digit(b: u8) -> bool
    ensures { result ≡ is_hex_digit b }
{
    matches!(b, b'0'..=b'9' | b'A'..=b'F')
}

// The value of a hexadecimal digit; 0 for any other byte.
fn hex_value(b: u8) -> u64
    ensures { result ≡ hex_value b }
{
    match b {
        b'0'..=b'9' => u64::from(b - b'0'),
        b'A'..=b'F' => u64::from(b - b'A') + 10,
        _ => 0,
    }
}

// The line is hexadecimal pairs: an even number of bytes, each a hexadecimal digit.
fn is_hex_line(line: &[u8]) -> bool
    ensures { result ≡ is_hex_line line.now }
{
    line.len() % 2 == 0 && line.iter().all(|b| is_hex_digit(*b))
}

// The number that c digits from place i on write, the highest digit first.
fn number(line: &[u8], i: usize, c: usize) -> u64
    requires inside { i + c ≤ length line.now }
    requires digits { c ≤ 16 }
    ensures { result ≡ field line.now i c }
{
    let mut n: u64 = 0;
    for b in &line[i..i + c] {
        n = n * 16 + hex_value(*b);
    }
    n
}

// An insert: a rank of 2 bytes and an entry of 8.
fn insert(line: &[u8]) -> Option<Frame>
    ensures { result ≡ insert_of line.now }
{
    if line.len() != 22 {
        return None;
    }
    let rank = number(line, 2, 4) as usize;
    let entry = number(line, 6, 16);
    Some(Frame::Insert { rank, entry })
}

// A delete: a rank of 2 bytes.
fn delete(line: &[u8]) -> Option<Frame>
    ensures { result ≡ delete_of line.now }
{
    if line.len() != 6 {
        return None;
    }
    let rank = number(line, 2, 4) as usize;
    Some(Frame::Delete { rank })
}

// A read: the first and the last rank, 2 bytes each.
fn read(line: &[u8]) -> Option<Frame>
    ensures { result ≡ read_of line.now }
{
    if line.len() != 10 {
        return None;
    }
    let first = number(line, 2, 4) as usize;
    let last = number(line, 6, 4) as usize;
    Some(Frame::Read { first, last })
}

// A tape: 1 to 16 words of 4 bytes.
fn tape(line: &[u8]) -> Option<Frame>
    ensures { result ≡ tape_of line.now }
{
    if line.len() % 8 != 2 {
        return None;
    }
    let words = line.len() / 8;
    if words < 1 {
        return None;
    }
    if 16 < words {
        return None;
    }
    Some(Frame::Tape { words })
}

// A place: a rank of 2 bytes.
fn place(line: &[u8]) -> Option<Frame>
    ensures { result ≡ place_of line.now }
{
    if line.len() != 6 {
        return None;
    }
    let rank = number(line, 2, 4) as usize;
    Some(Frame::Place { rank })
}

// A frame of its first byte alone.
fn alone(line: &[u8], frame: Frame) -> Option<Frame>
    ensures { result ≡ of_length line.now 2 frame }
{
    if line.len() != 2 {
        return None;
    }
    Some(frame)
}

// The frame that a line of hexadecimal pairs is, by its first byte.
fn form(first: u64, line: &[u8]) -> Option<Frame>
    ensures { result ≡ form_of first line.now }
{
    match first {
        1 => insert(line),
        2 => delete(line),
        3 => read(line),
        4 => tape(line),
        5 => alone(line, Frame::Print),
        6 => alone(line, Frame::Clear),
        7 => place(line),
        _ => None,
    }
}

// The frame that a line is, if it is one: hexadecimal pairs, at least one.
pub fn decode(line: &[u8]) -> Option<Frame>
    ensures { result ≡ frame_of line.now }
{
    if line.len() < 2 {
        return None;
    }
    if !is_hex_line(line) {
        return None;
    }
    let first = number(line, 0, 2);
    form(first, line)
}

// The kind of a line: the first byte of the frame that it is, or 255 where it is none.
pub fn kind_of(line: &[u8]) -> u8
    ensures { result ≡ kind_of line.now }
{
    match decode(line) {
        Some(frame) => frame.kind(),
        None => 255,
    }
}

// Word k of a tape line, from 0.
pub fn word_at(line: &[u8], k: usize) -> u32
    requires word { k < words_of (frame_of line.now) }
    ensures { result ≡ word_at line.now k }
{
    number(line, 2 + 8 * k, 8) as u32
}
