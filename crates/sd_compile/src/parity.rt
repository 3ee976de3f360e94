// The exclusive or of literals, with its negation beside it. At each vtree node both are made of those of the two
// halves, so that no operation goes further down: `xor` would negate the right half anew at each level.
ghost use Rattle.std.specs.Prelude.{◌<◌, Bool, List, length, ◌&&◌, ◌||◌, IfOk, IfErr};
ghost use Rattle.sd_model.specs.Tree.{leaves};
ghost use Rattle.sd_model.specs.Assignment.{literal_holds};
ghost use Rattle.sd_model.specs.Expression.{combine};
ghost use Rattle.sd_model.specs.declared.trees.Operation.TheVariants.{Xor};
ghost use Rattle.sd_vtree.specs.Numbered.{plain_tree};
ghost use Rattle.sd_manager.specs.Valid.{IsTable};
ghost use Rattle.sd_manager.specs.Shown.{IsNodeOf};
ghost use Rattle.sd_manager.specs.Making.{Extends, KeepsRule};
ghost use Rattle.sd_apply.specs.Answers.{HasAnswer};
ghost use Rattle.sd_apply.specs.Serving.{Serves};
ghost use Rattle.sd_compile.specs.Joined.{joined, literal_of_place, ArePlaced, HasBothAnswers};

use crate::groups::parting;
use sd_apply::{and, negate, or};
use sd_cache::Cache;
use sd_manager::{Manager, NodeId};
use sd_runs::TakeError;
use std::alloc::Global;

/// A node that shows where an odd number of literals hold, and one that shows where an even number do.
#[derive(Clone, Copy)]
pub(crate) struct Parity {
    pub(crate) odd: NodeId,
    pub(crate) even: NodeId,
}

/// The parity of literals in the order of their leaves: that of those below the left child of the lowest vtree node
/// over all of them, that of those below its right child, and then of both. It refuses as `sd_apply::and`.
pub(crate) fn parity_of(
    alloc: Global,
    m: &mut Manager,
    c: &mut Cache,
    placed: &[(u32, i32)],
) -> Result<Parity, TakeError>
    requires placed { ArePlaced (leaves (plain_tree m.old.vtree)) placed.now }
    requires serves { Serves c.old m.old }
    ensures ok { IfOk result (λ r. HasBothAnswers m.new
        (λ a. joined Xor (λ e. literal_holds a (literal_of_place e)) placed.now) r.odd r.even) }
    ensures kept { Extends m.old m.new }
    ensures serves { Serves c.new m.new }
    ensures rule { IfErr result (λ e. KeepsRule m.new e) }
    ensures table { IsTable m.new }
{
    if placed.len() < 2 {
        let node = only_literal(m, placed);
        return with_negation(alloc, m, c, node);
    }
    let split = parting(m, placed);
    let first = parity_of(alloc, m, c, &placed[..split])?;
    let second = parity_of(alloc, m, c, &placed[split..])?;
    parity_of_both(alloc, m, c, first, second)
}

// The literal of a list of one, and false where there is none.
fn only_literal(m: &Manager, placed: &[(u32, i32)]) -> NodeId
    requires placed { ArePlaced (leaves (plain_tree m.now.vtree)) placed.now }
    requires few { length placed.now < 2 }
    ensures value { HasAnswer m.now
        (λ a. joined Xor (λ e. literal_holds a (literal_of_place e)) placed.now) result }
    ensures table { IsTable m.now }
{
    let count = placed.len();
    if count == 0 {
        return m.constant(false);
    }
    m.literal(placed[0].1)
}

// The parity of two lists together.
fn parity_of_both(
    alloc: Global,
    m: &mut Manager,
    c: &mut Cache,
    first: Parity,
    second: Parity,
) -> Result<Parity, TakeError>
    requires first { (f : List Bool → Bool) × HasBothAnswers m.old f first.odd first.even }
    requires second { (f : List Bool → Bool) × HasBothAnswers m.old f second.odd second.even }
    requires serves { Serves c.old m.old }
    ensures ok { (f g : List Bool → Bool) → HasBothAnswers m.old f first.odd first.even →
        HasBothAnswers m.old g second.odd second.even → IfOk result
        (λ r. HasBothAnswers m.new (λ a. combine Xor (f a) (g a)) r.odd r.even) }
    ensures kept { Extends m.old m.new }
    ensures serves { Serves c.new m.new }
    ensures rule { IfErr result (λ e. KeepsRule m.new e) }
    ensures table { IsTable m.new }
{
    let odd = either(alloc, m, c, first.odd, second.even, first.even, second.odd)?;
    let even = either(alloc, m, c, first.odd, second.odd, first.even, second.even)?;
    Ok(Parity { odd, even })
}

// A node with its negation.
fn with_negation(
    alloc: Global,
    m: &mut Manager,
    c: &mut Cache,
    node: NodeId,
) -> Result<Parity, TakeError>
    requires node { IsNodeOf m.old node }
    requires serves { Serves c.old m.old }
    ensures ok { (f : List Bool → Bool) → HasAnswer m.old f node →
        IfOk result (λ r. HasBothAnswers m.new f r.odd r.even) }
    ensures kept { Extends m.old m.new }
    ensures serves { Serves c.new m.new }
    ensures rule { IfErr result (λ e. KeepsRule m.new e) }
    ensures table { IsTable m.new }
{
    let even = negate(alloc, m, c, node)?;
    Ok(Parity { odd: node, even })
}

// True where both of the first two nodes are, or both of the others.
fn either(
    alloc: Global,
    m: &mut Manager,
    c: &mut Cache,
    a: NodeId,
    b: NodeId,
    d: NodeId,
    e: NodeId,
) -> Result<NodeId, TakeError>
    requires a { IsNodeOf m.old a }
    requires b { IsNodeOf m.old b }
    requires d { IsNodeOf m.old d }
    requires e { IsNodeOf m.old e }
    requires serves { Serves c.old m.old }
    ensures ok { (p q r s : List Bool → Bool) → HasAnswer m.old p a → HasAnswer m.old q b →
        HasAnswer m.old r d → HasAnswer m.old s e → IfOk result
        (λ node. HasAnswer m.new (λ g. (p g && q g) || (r g && s g)) node) }
    ensures kept { Extends m.old m.new }
    ensures serves { Serves c.new m.new }
    ensures rule { IfErr result (λ e. KeepsRule m.new e) }
    ensures table { IsTable m.new }
{
    let one = and(alloc, m, c, a, b)?;
    let other = and(alloc, m, c, d, e)?;
    or(alloc, m, c, one, other)
}
