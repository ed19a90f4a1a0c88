// Whether the edges between committed rows have a ring.
ghost use Rattle.std.specs.Prelude.{◌≡◌, ◌≤◌};
ghost use Rattle.rules.specs.Lists.{any, upfrom};
ghost use Rattle.graph.specs.Sets.{edges, member};
ghost use Rattle.graph.specs.Reach.{ringed};
ghost use Rattle.sound.specs.Rings.{Peeled};

use graph::{ROWS, Set};

// Takes from a set the rows with no edge into what is left of it. Most edges lead to a higher row, so the highest goes first.
fn peeled(g: &[Set; ROWS], from: Set) -> Set
    ensures { Peeled (edges g.now) (member from) (member result) × (result ≤ from) }
{
    let mut left = from;
    for i in (0..ROWS).rev() {
        if graph::are_apart(g[i], left) {
            left = graph::without(left, graph::with(0, i));
        }
    }
    left
}

// Is there a ring? It is in what is left when no row can be taken away.
pub fn has_ring(g: &[Set; ROWS]) -> bool
    ensures { result ≡ any (ringed ROWS (edges g.now)) (upfrom 0 ROWS) }
{
    let mut left = Set::MAX;
    // No `for`: how often rows are taken away is known only when none is left.
    while left != 0 {
        let rest = peeled(g, left);
        if rest == left {
            return true;
        }
        left = rest;
    }
    false
}
