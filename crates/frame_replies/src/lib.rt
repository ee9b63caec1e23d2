// The lines that the program answers, written into an output slice from a place on. Each function gives the place behind what it wrote.
#![tactic(auto)]

ghost use Rattle.std.specs.Prelude.{◌≡◌, [], ◌∷◌, ◌++◌, ◌+◌, ◌*◌, ◌<◌, ◌≤◌, length};
ghost use Rattle.frame_replies.specs.Reply.{hex_digit, digits, entry_digits, header, line_of, brief, entries, placed, sheet, leaf};
ghost use Rattle.frame_replies.specs.Wrote.{Wrote};

// The byte that writes a digit.
fn hex_digit(v: u64) -> u8
    requires { v < 16 }
    ensures { result ≡ hex_digit v }
{
    if v < 10 {
        b'0' + v as u8
    } else {
        b'A' + (v as u8 - 10)
    }
}

// The last c digits of a number.
fn put_digits(output: &mut [u8], at: usize, c: usize, v: u64) -> usize
    requires { at + c ≤ length output.old }
    ensures { Wrote output.old at (digits c v) output.new result }
{
    let mut rest = v;
    for left in (0..c).rev() {
        output[at + left] = hex_digit(rest % 16);
        rest = rest / 16;
    }
    at + c
}

// LF.
fn put_end(output: &mut [u8], at: usize) -> usize
    requires { at < length output.old }
    ensures { Wrote output.old at (10 ∷ []) output.new result }
{
    output[at] = 10;
    at + 1
}

// Slots or entries, 8 bytes each.
fn put_entries(output: &mut [u8], at: usize, list: &[u64]) -> usize
    requires { at + 16 * length list.now ≤ length output.old }
    ensures { Wrote output.old at (entry_digits list.now) output.new result }
{
    let mut next = at;
    for entry in list {
        next = put_digits(output, next, 16, *entry);
    }
    next
}

// Three numbers: of v digits, of w digits and of 2 bytes.
fn put_numbers(output: &mut [u8], at: usize, v: usize, a: u64, w: usize, b: u64, c: u64) -> usize
    requires { at + (v + (w + 4)) ≤ length output.old }
    ensures { Wrote output.old at (digits v a ++ (digits w b ++ digits 4 c)) output.new result }
{
    let p = put_digits(output, at, v, a);
    let q = put_digits(output, p, w, b);
    put_digits(output, q, 4, c)
}

// What a line begins with: the first byte, a number of w digits and one of 2 bytes.
fn put_header(output: &mut [u8], at: usize, w: usize, kind: u64, a: u64, b: u64) -> usize
    requires { at + (6 + w) ≤ length output.old }
    ensures { Wrote output.old at (header w kind a b) output.new result }
{
    put_numbers(output, at, 2, kind, w, a, b)
}

// An answer of the first byte, the number of the cause and N alone.
pub fn put_brief(output: &mut [u8], at: usize, kind: u64, number: u64, n: u64) -> usize
    requires { at + 9 ≤ length output.old }
    ensures { Wrote output.old at (line_of (brief kind number n)) output.new result }
{
    let a = put_header(output, at, 2, kind, number, n);
    put_end(output, a)
}

// The answer to an accepted read.
pub fn put_read(output: &mut [u8], at: usize, n: u64, list: &[u64]) -> usize
    requires { at + (9 + 16 * length list.now) ≤ length output.old }
    ensures { Wrote output.old at (line_of (entries n list.now)) output.new result }
{
    let a = put_header(output, at, 2, 131, 0, n);
    let b = put_entries(output, a, list);
    put_end(output, b)
}

// The answer to an accepted place.
pub fn put_place(output: &mut [u8], at: usize, n: u64, place: u64, sum: u64, boats: u64) -> usize
    requires { at + 25 ≤ length output.old }
    ensures { Wrote output.old at (line_of (placed n place sum boats)) output.new result }
{
    let a = put_header(output, at, 2, 135, 0, n);
    let b = put_numbers(output, a, 4, place, 8, sum, boats);
    put_end(output, b)
}

// The line 90 of a print.
pub fn put_sheet(output: &mut [u8], at: usize, m: u64, n: u64) -> usize
    requires { at + 11 ≤ length output.old }
    ensures { Wrote output.old at (line_of (sheet m n)) output.new result }
{
    let a = put_header(output, at, 4, 144, m, n);
    put_end(output, a)
}

// A line 91 of a print.
pub fn put_leaf(output: &mut [u8], at: usize, number: u64, count: u64, slots: &[u64]) -> usize
    requires { at + (11 + 16 * length slots.now) ≤ length output.old }
    ensures { Wrote output.old at (line_of (leaf number count slots.now)) output.new result }
{
    let a = put_header(output, at, 4, 145, number, count);
    let b = put_entries(output, a, slots);
    put_end(output, b)
}
