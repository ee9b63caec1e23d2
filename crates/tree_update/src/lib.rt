// The counts of a sheet, changed by an entry that comes in or goes out: the size step, then the walk, or everything is rebuilt.
#![tactic(auto)]

ghost use Rattle.std.specs.Prelude.{length};
ghost use Rattle.draw_shares.specs.Tape.{run_at};
ghost use Rattle.tree_rules.specs.Rules as rules;
ghost use Rattle.tree_counts.specs.Counts.{shape_in};
ghost use Rattle.tree_walk.specs.Updated.{UpdatedAs};
ghost use Rattle.tree_update.specs.Update.{UpdateReady};

use tree_counts::Part;
use tree_rules::{Change, Stepped};
use tree_sizes::Size;
use tree_walk::Updated;

// Changes the counts of n entries with the size parameter m, by the words of the tape from its start: the size step first; then the walk,
// or everything is rebuilt.
pub fn update(
    change: Change,
    n: usize,
    m: usize,
    counts: &mut [u32],
    tape: &[u32],
) -> Option<Updated>
    requires { UpdateReady change n m counts.old }
    ensures { UpdatedAs change n (shape_in counts.old) (run_at (rules.update change n (shape_in counts.old)) tape.now 0) result (length counts.old) counts.new }
{
    let stepped = tree_rules::size_step(change, n, m, tape, 0)?;
    match stepped {
        Stepped::Kept { next } => {
            let size = Size { m };
            tree_walk::walk(change, n, size, counts, tape, next)
        }
        Stepped::Anew { m: anew, next } => {
            let size = Size { m: anew };
            let after = change.count_after(n);
            let next = tree_counts::fresh(size, after, counts, tape, next)?;
            let part = Part {
                range: 1,
                depth: 0,
                rank: change.rank(),
            };
            Some(Updated {
                m: anew,
                part,
                next,
            })
        }
    }
}
