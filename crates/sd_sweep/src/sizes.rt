// Sizes without memory. That of one root is found by a visit of each decomposition below it, which are chained by their
// marks meanwhile. That of all held roots is in the manager's live counts.
ghost use Rattle.std.specs.Prelude.{◌≡◌, [], ◌∷◌, List, None};
ghost use Rattle.std.specs.Option.{IsSome};
ghost use Rattle.std.specs.FinMap.{get};
ghost use Rattle.sd_model.specs.Diagram.{Diagram};
ghost use Rattle.sd_model.specs.Size.{size_of};
ghost use Rattle.sd_manager.specs.Shown.{HoldsDiagram};
ghost use Rattle.sd_manager.specs.Valid.{IsTable};
ghost use Rattle.sd_manager.specs.Marking.{AreUnmarked};
ghost use Rattle.sd_sweep.specs.Reached.{AreHeldDiagrams};

use crate::chain::{chain_below, unchain};
use sd_manager::{Manager, Root};

/// The size of the diagram that a root shows: the elements of its distinct decompositions together. It takes no memory,
/// and reads the elements of each decomposition below the root once.
pub fn size_of(m: &mut Manager, root: &Root) -> u32
    requires no_move { m.old.moving ≡ None }
    requires unmarked { AreUnmarked m.old }
    requires held { IsSome (get m.old.roots root.now) }
    ensures size { (d : Diagram) → HoldsDiagram m.old root.now d → result ≡ size_of (d ∷ []) }
    ensures same { m.new ≡ m.old }
    ensures table { IsTable m.new }
{
    let node = m.node_of(root);
    if !node.is_decomposition() {
        return 0;
    }
    let (nodes, size) = chain_below(m, node);
    unchain(m, node, nodes);
    size
}

/// The total size: that of the diagrams which the held roots show, where each distinct decomposition counts once. It
/// takes no memory, and costs what came under a root, or is under none any more, since it was last asked for, and a
/// store for each number that is new since.
pub fn size(m: &mut Manager) -> u32
    requires no_move { m.old.moving ≡ None }
    ensures size { (ds : List Diagram) → AreHeldDiagrams m.old ds → result ≡ size_of ds }
    ensures same { m.new ≡ m.old }
    ensures table { IsTable m.new }
{
    m.total()
}
