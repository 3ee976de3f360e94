// One call: the cache is asked once, and keeps the answer. What is found on the way stands in a table
// of the call's own.
ghost use Rattle.std.specs.Prelude.{◌≤◌, ◌/◌, ◌%◌, ◌==◌, IfOk, IfErr};
ghost use Rattle.sd_model.specs.Tree.{leaves};
ghost use Rattle.sd_vtree.specs.Numbered.{plain_tree};
ghost use Rattle.sd_manager.specs.Shown.{IsNodeOf};
ghost use Rattle.sd_manager.specs.Valid.{IsTable};
ghost use Rattle.sd_manager.specs.Making.{Extends, KeepsRule};
ghost use Rattle.sd_apply.specs.Growing.{GrowsBelowBoth};
ghost use Rattle.sd_apply.specs.Serving.{Serves};
ghost use Rattle.sd_cond.specs.Calls.{conditioned, forgotten, AnswersOf};

use crate::asked::{Condition, Variable};
use crate::conditioning::{at_terminal, given_here};
use crate::forgetting::{forget_here, forget_terminal};
use crate::kept::{ForgetAnswers, KeptAnswers};
use crate::places::is_over;
use sd_apply::place_with_children;
use sd_cache::Cache;
use sd_manager::{Manager, NodeId};
use sd_runs::TakeError;
use std::alloc::Global;

/// The number of conditioning among the operations.
const GIVEN: u8 = 4;

/// The number of forgetting.
const FORGET: u8 = 5;

/// Conditioning on a literal.
pub(crate) fn given_cached(
    alloc: Global,
    m: &mut Manager,
    c: &mut Cache,
    a: NodeId,
    literal: NodeId,
) -> Result<NodeId, TakeError>
    requires node { IsNodeOf m.old a }
    requires low { 2 ≤ literal }
    requires within { literal / 2 ≤ leaves (plain_tree m.old.vtree) }
    requires serves { Serves c.old m.old }
    ensures ok { IfOk result (λ r.
        AnswersOf m.old m.new (conditioned (literal / 2) (literal % 2 == 0)) a r) }
    ensures kept { Extends m.old m.new }
    ensures grown { GrowsBelowBoth m.old m.new a a }
    ensures serves { Serves c.new m.new }
    ensures rule { IfErr result (λ e. KeepsRule m.new e) }
    ensures table { IsTable m.new }
{
    let epoch = m.epoch();
    let variable = literal.variable();
    let positive = literal.is_positive();
    if let Some(node) = at_terminal(a, variable, positive) {
        return Ok(node);
    }
    if let Some(code) = c.look(epoch, GIVEN, a.0, literal.0) {
        return Ok(NodeId(code));
    }
    let root = m.vtree().root();
    let leaf = m.vtree().leaf(variable);
    let fork = place_with_children(m, root, a);
    if !is_over(m, root, fork.node, leaf) {
        return Ok(a);
    }
    let condition = Condition {
        variable,
        positive,
        leaf,
    };
    let mut kept = KeptAnswers::new(alloc);
    let code = given_here(alloc, m, c, &mut kept, &condition, &fork, a)?;
    // an answer that is not kept is found again
    let _ = c.keep(epoch, GIVEN, a.0, literal.0, code.0);
    Ok(code)
}

/// Forgetting a variable.
pub(crate) fn forget_cached(
    alloc: Global,
    m: &mut Manager,
    c: &mut Cache,
    a: NodeId,
    variable: u32,
) -> Result<NodeId, TakeError>
    requires node { IsNodeOf m.old a }
    requires positive { 1 ≤ variable }
    requires within { variable ≤ leaves (plain_tree m.old.vtree) }
    requires serves { Serves c.old m.old }
    ensures ok { IfOk result (λ r. AnswersOf m.old m.new (forgotten variable) a r) }
    ensures kept { Extends m.old m.new }
    ensures grown { GrowsBelowBoth m.old m.new a a }
    ensures serves { Serves c.new m.new }
    ensures rule { IfErr result (λ e. KeepsRule m.new e) }
    ensures table { IsTable m.new }
{
    let epoch = m.epoch();
    if let Some(node) = forget_terminal(a, variable) {
        return Ok(node);
    }
    let literal = 2 * variable;
    if let Some(code) = c.look(epoch, FORGET, a.0, literal) {
        return Ok(NodeId(code));
    }
    let root = m.vtree().root();
    let leaf = m.vtree().leaf(variable);
    let fork = place_with_children(m, root, a);
    if !is_over(m, root, fork.node, leaf) {
        return Ok(a);
    }
    let variable = Variable {
        number: variable,
        leaf,
    };
    let mut answers = ForgetAnswers {
        forgotten: KeptAnswers::new(alloc),
        with_true: KeptAnswers::new(alloc),
        with_false: KeptAnswers::new(alloc),
    };
    let code = forget_here(alloc, m, c, &mut answers, &variable, &fork, a)?;
    // an answer that is not kept is found again
    let _ = c.keep(epoch, FORGET, a.0, literal, code.0);
    Ok(code)
}
