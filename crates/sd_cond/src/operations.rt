// Conditioning and forgetting at the whole vtree.
ghost use Rattle.std.specs.Prelude.{◌≤◌, IfOk, IfErr};
ghost use Rattle.sd_model.specs.Tree.{leaves};
ghost use Rattle.sd_vtree.specs.Numbered.{plain_tree};
ghost use Rattle.sd_manager.specs.Literals.{IsLiteralTo};
ghost use Rattle.sd_manager.specs.Shown.{IsNodeOf};
ghost use Rattle.sd_manager.specs.Valid.{IsTable};
ghost use Rattle.sd_manager.specs.Making.{Extends, KeepsRule};
ghost use Rattle.sd_apply.specs.Growing.{GrowsBelowBoth};
ghost use Rattle.sd_apply.specs.Serving.{Serves};
ghost use Rattle.sd_cond.specs.Answers.{Conditions, Forgets};

use crate::cached::{forget_cached, given_cached};
use sd_cache::Cache;
use sd_manager::{Manager, NodeId};
use sd_runs::TakeError;
use std::alloc::Global;

/// The node with the value that `a` has where a literal holds, as DIMACS has it: x for a variable x
/// from 1 to V, and -x for its negation. ArenaFull where the elements of a node find no room in the
/// arena, and OutOfMemory where memory runs out; then each node shows what it showed.
pub fn given(
    alloc: Global,
    m: &mut Manager,
    c: &mut Cache,
    a: NodeId,
    literal: i32,
) -> Result<NodeId, TakeError>
    requires node { IsNodeOf m.old a }
    requires literal { IsLiteralTo (leaves (plain_tree m.old.vtree)) literal }
    requires serves { Serves c.old m.old }
    ensures ok { IfOk result (λ r. Conditions m.old m.new a literal r) }
    ensures kept { Extends m.old m.new }
    ensures grown { GrowsBelowBoth m.old m.new a a }
    ensures serves { Serves c.new m.new }
    ensures rule { IfErr result (λ e. KeepsRule m.new e) }
    ensures table { IsTable m.new }
{
    let node = m.literal(literal);
    given_cached(alloc, m, c, a, node)
}

/// The node that is true where `a` is true for one of the values of a variable from 1 to V. It
/// refuses as `given`.
pub fn forget(
    alloc: Global,
    m: &mut Manager,
    c: &mut Cache,
    a: NodeId,
    variable: u32,
) -> Result<NodeId, TakeError>
    requires node { IsNodeOf m.old a }
    requires positive { 1 ≤ variable }
    requires within { variable ≤ leaves (plain_tree m.old.vtree) }
    requires serves { Serves c.old m.old }
    ensures ok { IfOk result (λ r. Forgets m.old m.new a variable r) }
    ensures kept { Extends m.old m.new }
    ensures grown { GrowsBelowBoth m.old m.new a a }
    ensures serves { Serves c.new m.new }
    ensures rule { IfErr result (λ e. KeepsRule m.new e) }
    ensures table { IsTable m.new }
{
    forget_cached(alloc, m, c, a, variable)
}
