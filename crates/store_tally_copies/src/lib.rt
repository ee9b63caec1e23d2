// Tallies compared with the counts, the tally of the whole sheet, and the tallies of a sheet without retired boats: its counts, with 0 at number 0.
#![tactic(auto)]

ghost use Rattle.std.specs.Prelude.{◌≡◌, ◌∷◌, ◌<◌, length, get_or, drop};
ghost use Rattle.base.specs.Lists.{equal_lists};

// The tally of the whole sheet: that of the root, at number 1.
pub fn root_tally(tallies: &[u32]) -> usize
    requires { 1 < length tallies.now }
    ensures { result ≡ get_or tallies.now 1 0 }
{
    tallies[1] as usize
}

// The tallies are the counts, but 0 at number 0.
pub fn are_counts(tallies: &[u32], counts: &[u32]) -> bool
    requires lengths { length tallies.now ≡ length counts.now }
    requires some { 0 < length tallies.now }
    ensures { result ≡ equal_lists tallies.now (0 ∷ drop 1 counts.now) }
{
    tallies[0] == 0 && tallies[1..] == counts[1..]
}

// Copies the numbers from 1 on; number 0 is not written. By `copy_from_slice` an archive for C would need memmove.
pub fn copy_ranges(to: &mut [u32], from: &[u32])
    requires lengths { length to.old ≡ length from.now }
    requires some { 0 < length to.old }
    ensures { to.new ≡ get_or to.old 0 0 ∷ drop 1 from.now }
{
    for k in 1..from.len() {
        to[k] = from[k];
    }
}

// Makes the tallies the counts, but 0 at number 0.
pub fn copy_counts(tallies: &mut [u32], counts: &[u32])
    requires lengths { length tallies.old ≡ length counts.now }
    requires some { 0 < length tallies.old }
    ensures { tallies.new ≡ 0 ∷ drop 1 counts.now }
{
    tallies[0] = 0;
    copy_ranges(tallies, counts);
}
