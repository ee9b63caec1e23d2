// Which slots of a leaf are taken, as one number; and what that number is for leaves of the sizes that the clubs' sheets and the federation's
// list have, by tables.
#![tactic(auto)]

ghost use Rattle.std.specs.Prelude.{◌≡◌, ◌+◌, ◌*◌, ◌-◌, ◌^◌, ◌≤◌, ◌<◌, length, take, drop};
ghost use Rattle.store_masks.specs.Mask.{is_taken, taken};

pub mod table; // table.rt: the masks of the clubs' leaves
pub mod larger; // larger.rt: the masks of larger leaves

// One more than the taken slots as a number, where the given number is that without the last slot.
fn next_digit(number: u64, slot: u64) -> u64
    requires some { 0 < number }
    requires room { number < 2 ^ 63 }
    ensures { result ≡ 2 * number + is_taken slot - 1 }
{
    let twice = number + number;
    if slot == 0 {
        return twice - 1;
    }
    twice
}

// Three numbers of g binary digits each, written one after the other.
fn joined(left: u64, middle: u64, right: u64, g: usize) -> u64
    requires few { g ≤ 20 }
    requires digits { (left < 2 ^ g) × (middle < 2 ^ g) × (right < 2 ^ g) }
    ensures { result ≡ (left * 2 ^ g + middle) * 2 ^ g + right }
{
    let shift = tree_sizes::power(g) as u64;
    (left * shift + middle) * shift + right
}

// The taken ones of the 3 g slots from `from` on, as a number. Each third is worked out by itself, so that none waits for another.
pub fn taken_slots(slots: &[u64], from: usize, g: usize) -> u64
    requires room { from + 3 * g ≤ length slots.now }
    requires few { g ≤ 20 }
    ensures { result ≡ taken (take (3 * g) (drop from slots.now)) }
{
    let second = from + g;
    let third = second + g;
    let mut left: u64 = 1;
    let mut middle: u64 = 1;
    let mut right: u64 = 1;
    for i in 0..g {
        left = next_digit(left, slots[from + i]);
        middle = next_digit(middle, slots[second + i]);
        right = next_digit(right, slots[third + i]);
    }
    joined(left - 1, middle - 1, right - 1, g)
}
