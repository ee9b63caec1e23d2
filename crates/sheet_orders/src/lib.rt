// The clubs' counts converted from the order of the range numbers to the tree order, and back.
#![tactic(auto)]

ghost use Rattle.std.specs.Prelude.{◌≡◌};
ghost use Rattle.call_outcomes.specs.Clubs.{clubs};
ghost use Rattle.call_orders.specs.Conversion.{to_tree, to_number, conversion};

use call_outcomes::{Answer, Cause};
use tree_sizes::Size;

// Moves each count of a range from the index of the range's number to its place in the tree order.
pub fn to_tree_order(counts: &mut [u16]) -> Result<Answer, Cause>
    ensures { record { answer = result; counts = counts.new } ≡ conversion clubs to_tree counts.old }
{
    if counts.len() != 256 {
        return Err(Cause::Lengths);
    }
    let m = counts[0] as usize;
    if 2047 < m {
        return Err(Cause::NotASheet);
    }
    let mut from = [0u32; 256];
    let mut to = [0u32; 256];
    store_widths::widen(counts, &mut from);
    store_counts::write_counts(Size { m: m }, &from, &mut to);
    store_widths::narrow(&to, counts);
    Ok(Answer::Converted { m: m })
}

// Moves each count of a range back to the index of the range's number.
pub fn to_number_order(counts: &mut [u16]) -> Result<Answer, Cause>
    ensures { record { answer = result; counts = counts.new } ≡ conversion clubs to_number counts.old }
{
    if counts.len() != 256 {
        return Err(Cause::Lengths);
    }
    let m = counts[0] as usize;
    if 2047 < m {
        return Err(Cause::NotASheet);
    }
    let mut from = [0u32; 256];
    let mut to = [0u32; 256];
    store_widths::widen(counts, &mut from);
    store_counts::read_counts(Size { m: m }, &from, &mut to);
    store_widths::narrow(&to, counts);
    Ok(Answer::Converted { m: m })
}
