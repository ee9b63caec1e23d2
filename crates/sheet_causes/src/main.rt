// Makes each of the seven calls and meets each of the causes 1 to 7 and 16, and prints what each call returns: the number and two values; behind a
// read and a board also its output of two elements.
#![tactic(auto)]

use call_outcomes::{Answer, Cause, Returned};
use std::io;

// The slots of the store.
const SLOTS: usize = 4224;

// The counts of the store, and its tallies.
const COUNTS: usize = 256;

// Prints a line: the name of a call, the number and the two values that it returned.
fn show(rt: &impl Print, name: &str, answer: Result<Answer, Cause>) -> io::Result<()> {
    let back = Returned::from(answer);
    println!(rt; "{name} {} {} {}", back.number, back.first, back.second)
}

// Prints a line of two entries.
fn show_entries(rt: &impl Print, first: u64, second: u64) -> io::Result<()> {
    println!(rt; "{first} {second}")
}

fn clear(
    rt: &impl Print,
    slots: &mut [u64],
    counts: &mut [u16; COUNTS],
    tallies: &mut [u16],
) -> io::Result<()> {
    show(rt, "clear", sheet_calls::clear(slots, counts, tallies))
}

// An insert that is lent 64 words.
fn insert(
    rt: &impl Print,
    slots: &mut [u64; SLOTS],
    counts: &mut [u16; COUNTS],
    tallies: &mut [u16; COUNTS],
    rank: usize,
    entry: u64,
) -> io::Result<()> {
    let tape = [0u32; 64];
    show(
        rt,
        "insert",
        sheet_calls::insert(slots, counts, tallies, rank, entry, &tape),
    )
}

// A delete that is lent no word.
fn delete(
    rt: &impl Print,
    slots: &mut [u64; SLOTS],
    counts: &mut [u16; COUNTS],
    tallies: &mut [u16; COUNTS],
    rank: usize,
) -> io::Result<()> {
    let tape = [0u32; 0];
    show(
        rt,
        "delete",
        sheet_calls::delete(slots, counts, tallies, rank, &tape),
    )
}

fn check(
    rt: &impl Print,
    slots: &[u64; SLOTS],
    counts: &[u16; COUNTS],
    tallies: &[u16; COUNTS],
) -> io::Result<()> {
    show(rt, "check", sheet_calls::check(slots, counts, tallies))
}

fn place(
    rt: &impl Print,
    slots: &[u64; SLOTS],
    counts: &[u16; COUNTS],
    tallies: &[u16; COUNTS],
    rank: usize,
) -> io::Result<()> {
    show(
        rt,
        "place",
        sheet_calls::place(slots, counts, tallies, rank),
    )
}

// A read from rank 0 on, with room for two entries.
fn read(
    rt: &impl Print,
    slots: &[u64; SLOTS],
    counts: &[u16; COUNTS],
    tallies: &[u16; COUNTS],
    last: usize,
) -> io::Result<()> {
    let mut output = [0u64; 2];
    show(
        rt,
        "read",
        sheet_calls::read(slots, counts, tallies, 0, last, &mut output),
    )?;
    show_entries(rt, output[0], output[1])
}

// A board of two ranks.
fn board(
    rt: &impl Print,
    slots: &[u64; SLOTS],
    counts: &[u16; COUNTS],
    tallies: &[u16; COUNTS],
    first: u64,
    second: u64,
) -> io::Result<()> {
    let ranks = [first, second];
    let mut output = [0u64; 2];
    show(
        rt,
        "board",
        sheet_calls::board(slots, counts, tallies, &ranks, &mut output),
    )?;
    show_entries(rt, output[0], output[1])
}

// Slots that are too few, and tallies that are too few (cause 1).
fn lengths(
    rt: &impl Print,
    slots: &mut [u64; SLOTS],
    counts: &mut [u16; COUNTS],
    tallies: &mut [u16; COUNTS],
) -> io::Result<()> {
    let mut few_slots = [7u64; 2];
    let mut few_tallies = [7u16; 2];
    clear(rt, &mut few_slots, counts, tallies)?;
    clear(rt, slots, counts, &mut few_tallies)
}

// On a store that is no sheet only clear is accepted (cause 2). Then entry 0 (cause 3), which decides before the rank, and a rank that is too
// high (cause 4).
fn start(
    rt: &impl Print,
    slots: &mut [u64; SLOTS],
    counts: &mut [u16; COUNTS],
    tallies: &mut [u16; COUNTS],
) -> io::Result<()> {
    insert(rt, slots, counts, tallies, 0, 7)?;
    clear(rt, slots, counts, tallies)?;
    insert(rt, slots, counts, tallies, 9, 0)?;
    insert(rt, slots, counts, tallies, 9, 7)
}

// The only entry is taken out without a word; one of two is not (cause 7).
fn words(
    rt: &impl Print,
    slots: &mut [u64; SLOTS],
    counts: &mut [u16; COUNTS],
    tallies: &mut [u16; COUNTS],
) -> io::Result<()> {
    insert(rt, slots, counts, tallies, 0, 7)?;
    delete(rt, slots, counts, tallies, 0)?;
    insert(rt, slots, counts, tallies, 0, 7)?;
    insert(rt, slots, counts, tallies, 1, 8)?;
    delete(rt, slots, counts, tallies, 0)
}

// Of two boats that score a tally of one is wrong (cause 2).
fn tally(
    rt: &impl Print,
    slots: &[u64; SLOTS],
    counts: &[u16; COUNTS],
    tallies: &mut [u16; COUNTS],
) -> io::Result<()> {
    tallies[1] = 1;
    check(rt, slots, counts, tallies)?;
    tallies[1] = 2;
    check(rt, slots, counts, tallies)
}

// Places and reads, past the end (cause 4); boards, past the end too, and of ranks that fall (cause 16), which decides before the rank.
fn questions(
    rt: &impl Print,
    slots: &[u64; SLOTS],
    counts: &[u16; COUNTS],
    tallies: &[u16; COUNTS],
) -> io::Result<()> {
    place(rt, slots, counts, tallies, 1)?;
    place(rt, slots, counts, tallies, 2)?;
    read(rt, slots, counts, tallies, 1)?;
    read(rt, slots, counts, tallies, 2)?;
    board(rt, slots, counts, tallies, 1, 1)?;
    board(rt, slots, counts, tallies, 1, 2)?;
    board(rt, slots, counts, tallies, 2, 1)
}

// Inserts entries at the front until 1,024 stand.
fn fill(
    slots: &mut [u64; SLOTS],
    counts: &mut [u16; COUNTS],
    tallies: &mut [u16; COUNTS],
    tape: &[u32],
) {
    for entry in 3..=1024 {
        let _ = sheet_calls::insert(slots, counts, tallies, 0, entry, tape);
    }
}

fn main(rt: HostRuntime) -> io::Result<()> {
    let mut slots = [7u64; SLOTS];
    let mut counts = [7u16; COUNTS];
    let mut tallies = [7u16; COUNTS];
    let tape = [0u32; 2048];
    lengths(&rt, &mut slots, &mut counts, &mut tallies)?;
    start(&rt, &mut slots, &mut counts, &mut tallies)?;
    words(&rt, &mut slots, &mut counts, &mut tallies)?;
    tally(&rt, &slots, &counts, &mut tallies)?;
    questions(&rt, &slots, &counts, &tallies)?;
    fill(&mut slots, &mut counts, &mut tallies, &tape);
    // A full sheet takes no entry (cause 5), and three entries do not go into an output of two (cause 6).
    insert(&rt, &mut slots, &mut counts, &mut tallies, 0, 9)?;
    read(&rt, &slots, &counts, &tallies, 2)
}
