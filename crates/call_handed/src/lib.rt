// What a call returns, handed over to a program in C: the number of the cause, and two or three values in an answer slice.
#![tactic(auto)]

ghost use Rattle.std.specs.Prelude.{◌≡◌, ◌≤◌, length};
ghost use Rattle.call_handed.specs.Handed.{filled};

use call_outcomes::Returned;

// Puts the first so many of the values at the front of the answer slice, and gives the number.
pub fn hand(back: Returned, values: usize, answer: &mut [u64]) -> usize
    requires { (2 ≤ values) × (values ≤ 3) × (values ≤ length answer.old) }
    ensures { (result ≡ back.number) × (answer.new ≡ filled values back answer.old) }
{
    answer[0] = back.first as u64;
    answer[1] = back.second as u64;
    if 2 < values {
        answer[2] = back.third as u64;
    }
    back.number
}
