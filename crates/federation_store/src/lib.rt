// The federation's store, and the look at it.
#![tactic(auto)]

ghost use Rattle.std.specs.Prelude.{◌&&◌, ◌≡◌, eqb, length};
ghost use Rattle.call_outcomes.specs.Plain.{plain_store_of};
ghost use Rattle.call_outcomes.specs.Federation.{federation};
ghost use Rattle.sheet_open.specs.PlainOpening.{PlainOpening};

use call_open::Opened;
use call_outcomes::Cause;
use store_layout::Capacity;

// What the federation's store has room for.
pub fn capacity() -> Capacity
    ensures { result ≡ federation }
{
    Capacity {
        entries: 65536,
        slots: 208896,
        counts: 8192,
    }
}

// Slices of these lengths are a plain store of the federation.
pub fn right_lengths(slots: usize, counts: usize, tallies: usize) -> bool
    ensures { result ≡ (eqb slots 208896 && eqb counts 8192 && eqb tallies 8192) }
{
    sheet_open::right_lengths(capacity(), slots, counts, tallies)
}

// Looks at slots, counts and tallies: where they are a plain sheet, `work` has the counts and `numbers` the tallies by range number; or cause 1
// or 2 decides.
pub fn examine(
    slots: &[u64],
    counts: &[u32],
    tallies: &[u32],
    work: &mut [u32],
    numbers: &mut [u32],
) -> Result<Opened, Cause>
    requires work { length work.old ≡ 8192 }
    requires numbers { length numbers.old ≡ 8192 }
    ensures { PlainOpening federation (plain_store_of slots.now counts.now tallies.now) result work.new numbers.new }
{
    sheet_open::examine(capacity(), slots, counts, tallies, work, numbers)
}
