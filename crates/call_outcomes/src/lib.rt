// The answers of the calls: what is returned, with the number of the cause where a call is refused.
#![tactic(auto)]

ghost use Rattle.std.specs.Prelude.{◌≡◌};
ghost use Rattle.call_outcomes.specs.Returns as returns;

// Why a call or a line is refused, in the order in which the causes decide.
#[derive(Clone, Copy)]
pub enum Cause {
    Lengths,
    NotMendable,
    NotASheet,
    NotTimed,
    BoardRanks,
    EntryZero,
    EntryPresent,
    Rank,
    Full,
    OutputShort,
    TapeEnded,
    NoFrame,
    TapeFull,
}

// What an accepted call answers.
#[derive(Clone, Copy)]
pub enum Answer {
    Cleared,
    Changed {
        n: usize,
        words: usize,
    },
    Entries {
        count: usize,
    },
    Placed {
        place: usize,
        sum: usize,
        boats: usize,
    },
    Checked {
        n: usize,
    },
    Present {
        rank: usize,
    },
    Absent {
        rank: usize,
    },
    Converted {
        m: usize,
    },
    Mended {
        n: usize,
    },
}

// The number of the cause.
impl From<Cause> for usize {
    ghost from_gives = { λ cause number. number ≡ returns.cause_number cause };

    fn from(cause: Cause) -> usize {
        match cause {
            Cause::Lengths => 1,
            Cause::NotMendable => 18,
            Cause::NotASheet => 2,
            Cause::NotTimed => 11,
            Cause::BoardRanks => 16,
            Cause::EntryZero => 3,
            Cause::EntryPresent => 10,
            Cause::Rank => 4,
            Cause::Full => 5,
            Cause::OutputShort => 6,
            Cause::TapeEnded => 7,
            Cause::NoFrame => 8,
            Cause::TapeFull => 9,
        }
    }
}

// What is returned: the number of the cause, or 0, and three values.
#[derive(Clone, Copy)]
pub struct Returned {
    pub number: usize,
    pub first: usize,
    pub second: usize,
    pub third: usize,
}

// The number 0 with these values.
fn accepted(first: usize, second: usize, third: usize) -> Returned
    ensures { result ≡ record { number = 0; first = first; second = second; third = third } }
{
    Returned {
        number: 0,
        first: first,
        second: second,
        third: third,
    }
}

// What an accepted call returns.
impl From<Answer> for Returned {
    ghost from_gives = { λ answer back. back ≡ returns.accepted answer };

    fn from(answer: Answer) -> Returned {
        match answer {
            Answer::Cleared => accepted(0, 0, 0),
            Answer::Changed { n, words } => accepted(n, words, 0),
            Answer::Entries { count } => accepted(count, 0, 0),
            Answer::Placed { place, sum, boats } => accepted(place, sum, boats),
            Answer::Checked { n } => accepted(n, 0, 0),
            Answer::Present { rank } => accepted(1, rank, 0),
            Answer::Absent { rank } => accepted(0, rank, 0),
            Answer::Converted { m } => accepted(m, 0, 0),
            Answer::Mended { n } => accepted(n, 0, 0),
        }
    }
}

// What a call returns: that, or the number of the cause and zeros.
impl From<Result<Answer, Cause>> for Returned {
    ghost from_gives = { λ given back. back ≡ returns.returned given };

    fn from(given: Result<Answer, Cause>) -> Returned {
        match given {
            Ok(answer) => Returned::from(answer),
            Err(cause) => Returned {
                number: usize::from(cause),
                first: 0,
                second: 0,
                third: 0,
            },
        }
    }
}
