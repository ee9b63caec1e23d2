// Boats tied at the line: the tied group of a scoring boat, found in the slots beside hers.
#![tactic(auto)]

ghost use Rattle.std.specs.Prelude.{◌≡◌, ◌^◌, ◌<◌, length, take};
ghost use Rattle.store_layout.specs.Leaf.{nonzero};
ghost use Rattle.store_scoring.specs.Scoring.{tally};
ghost use Rattle.store_ties.specs.Groups.{group_first, group_end, placing};
ghost use Rattle.store_ties.specs.Ties.{tie_bit, tied_in, placing_in};
ghost use Rattle.store_ties.specs.Steps.{InSlot, Scores};

// The first place of a tied group, the sum of its places, and the number of its boats.
#[derive(Clone, Copy)]
pub struct Placing {
    pub place: usize,
    pub sum: usize,
    pub boats: usize,
}

// The boat with this entry bears the bit that ties her to the boat before her.
fn is_tied(entry: u64) -> bool
    ensures { result ≡ tie_bit entry }
{
    entry >= 9223372036854775808
}

// The number of scoring boats before the first boat in the group of the boat in this slot, who has `before` of them before her.
// A boat without the bit ends the way back: a scoring one is the first of the group, and a retired one stands right before its first.
fn group_first(slots: &[u64], slot: usize, before: usize) -> usize
    requires { Scores slots.now slot before }
    ensures { result ≡ group_first (tied_in (nonzero slots.now)) before }
{
    let mut at = slot + 1;
    let mut first = before + 1;
    while 0 < first {
        at -= 1;
        let last = slots[at];
        if last != 0 {
            if !store_scoring::is_retired(last) {
                first -= 1;
            }
            if !is_tied(last) {
                return first;
            }
        }
    }
    0
}

// The number of scoring boats up to the last one in the group of the boat in this slot, who has `before` of them before her; there are
// `scoring` of them in all. A boat without the bit, scoring or retired, ends the way on.
fn group_end(slots: &[u64], slot: usize, before: usize, scoring: usize) -> usize
    requires boat { Scores slots.now slot before }
    requires number { scoring ≡ tally (nonzero slots.now) }
    ensures { result ≡ group_end (tied_in (nonzero slots.now)) scoring before }
{
    let mut at = slot + 1;
    let mut end = before + 1;
    while end < scoring {
        let next = slots[at];
        at += 1;
        if next != 0 {
            if !is_tied(next) {
                return end;
            }
            if !store_scoring::is_retired(next) {
                end += 1;
            }
        }
    }
    end
}

// What the scoring boats from number `first` up to, not including, number `end` share as one group.
fn shared(first: usize, end: usize) -> Placing
    requires some { first < end }
    requires few { end < 2 ^ 30 }
    ensures { result ≡ placing first end }
{
    let place = first + 1;
    let boats = end - first;
    Placing {
        place: place,
        sum: (place + end) * boats / 2,
        boats: boats,
    }
}

// The place, the sum of places and the number of boats in the tied group of the boat in this slot, who has `before` scoring boats before her;
// there are `scoring` of them in all. No slot is looked at but hers, those back to the first boat of the group and right before it, and those
// on to the boat behind the group.
pub fn placing_at(slots: &[u64], slot: usize, before: usize, scoring: usize) -> Placing
    requires boat { InSlot slots.now slot }
    requires ahead { before ≡ tally (nonzero (take slot slots.now)) }
    requires number { scoring ≡ tally (nonzero slots.now) }
    requires few { scoring < 2 ^ 30 }
    ensures { result ≡ placing_in (nonzero slots.now) (length (nonzero (take slot slots.now))) }
{
    let entry = slots[slot];
    if store_scoring::is_retired(entry) {
        return Placing {
            place: 0,
            sum: 0,
            boats: 1,
        };
    }
    let first = group_first(slots, slot, before);
    let end = group_end(slots, slot, before, scoring);
    shared(first, end)
}
