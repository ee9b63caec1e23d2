// The rule at one range: the candidates before and after a change compared, and the draw for the entering entry.
#![tactic(auto)]

ghost use Rattle.std.specs.Prelude.{◌≡◌};
ghost use Rattle.tree_rules.specs.Compare.{compare};
ghost use Rattle.tree_rules.specs.Step.{CompareReady};
ghost use Rattle.tree_visit.specs.Visit.{visit_at};

use draw::Drawn;
use tree_rules::{Change, Comparison};

// What the rule gives at a range that the walk visits: it passes on below, the balance entry leaves, or the entering entry becomes the
// balance entry. With the place of the next word.
#[derive(Clone, Copy)]
pub enum Visited {
    Pass { next: usize },
    Rebuild { next: usize },
    Enter { into: usize, next: usize },
}

// Visits a range of n entries with c candidates and the balance rank b: the candidates before and after the change are compared, and
// where another than the balance entry leaves, a draw among c says whether the entering one becomes the balance entry.
#[tactic(auto, unfolding(crate::specs::Visit::visit_at, crate::specs::Visit::visit_drawn, base::specs::Cases::if_eq))]
pub fn visit(
    change: Change,
    n: usize,
    c: usize,
    b: usize,
    tape: &[u32],
    at: usize,
) -> Option<Visited>
    requires { CompareReady change n c }
    ensures { result ≡ visit_at (compare change n c) c b tape.now at }
{
    let Comparison::Swapped { out, into } = tree_rules::compare(change, n, c) else {
        return Some(Visited::Pass { next: at });
    };
    if b == out {
        return Some(Visited::Rebuild { next: at });
    }
    let Drawn { face, next } = draw::draw(tape, at, c)?;
    if face == 0 {
        return Some(Visited::Enter { into, next });
    }
    Some(Visited::Pass { next })
}
