// Counts and tallies of 16 bits in a store, and the same numbers with 32 bits, in which the calls of every capacity work.
#![tactic(auto)]

ghost use Rattle.std.specs.Prelude.{◌≡◌, ◌∷◌, ◌^◌, ◌<◌, length, get_or, drop};
ghost use Rattle.base.specs.Lists.{Every, equal_lists};

// Copies the numbers as they stand, with 32 bits each.
pub fn widen(narrow: &[u16], wide: &mut [u32])
    requires { length wide.old ≡ length narrow.now }
    ensures { wide.new ≡ narrow.now }
{
    for (i, number) in narrow.iter().enumerate() {
        wide[i] = u32::from(*number);
    }
}

// Copies the numbers from 1 on, which fit, with 16 bits each; number 0 is not written.
pub fn narrow_ranges(wide: &[u32], narrow: &mut [u16])
    requires lengths { length narrow.old ≡ length wide.now }
    requires some { 0 < length wide.now }
    requires fit { Every (λ c. c < 2 ^ 16) wide.now }
    ensures { narrow.new ≡ get_or narrow.old 0 0 ∷ drop 1 wide.now }
{
    crate::narrow(&wide[1..], &mut narrow[1..]);
}

// Makes the tallies the counts, which fit, but 0 at number 0.
pub fn narrow_counts(counts: &[u32], tallies: &mut [u16])
    requires lengths { length tallies.old ≡ length counts.now }
    requires some { 0 < length counts.now }
    requires fit { Every (λ c. c < 2 ^ 16) counts.now }
    ensures { tallies.new ≡ 0 ∷ drop 1 counts.now }
{
    tallies[0] = 0;
    narrow_ranges(counts, tallies);
}

// Copies the numbers, which fit, as they stand, with 16 bits each.
pub fn narrow(wide: &[u32], narrow: &mut [u16])
    requires lengths { length narrow.old ≡ length wide.now }
    requires fit { Every (λ c. c < 2 ^ 16) wide.now }
    ensures { narrow.new ≡ wide.now }
{
    for (i, number) in wide.iter().enumerate() {
        narrow[i] = *number as u16;
    }
}

// The tallies are the counts, which have 32 bits. The differences are joined bit by bit and compared with 0 once, since in a sheet all have to be
// looked at.
fn are_same(tallies: &[u16], counts: &[u32]) -> bool
    requires { length tallies.now ≡ length counts.now }
    ensures { result ≡ equal_lists tallies.now counts.now }
{
    let pairs = tallies.iter().zip(counts.iter());
    let joined = pairs.fold(0, |joined, (tally, count)| {
        joined | (u32::from(*tally) ^ *count)
    });
    joined == 0
}

// The tallies are the counts, which have 32 bits, but 0 at number 0.
pub fn are_counts(tallies: &[u16], counts: &[u32]) -> bool
    requires lengths { length tallies.now ≡ length counts.now }
    requires some { 0 < length tallies.now }
    ensures { result ≡ equal_lists tallies.now (0 ∷ drop 1 counts.now) }
{
    tallies[0] == 0 && are_same(&tallies[1..], &counts[1..])
}
