// Decompositions in a list that takes no memory, since their marks chain them: the mark of each is the code of the next
// one, and that of the last one is 1.
ghost use Rattle.std.specs.Prelude.{◌≡◌, ◌-◌, ◌≤◌, ◌<◌, ◌^◌, ℕ, List, length, None};
ghost use Rattle.sd_model.specs.Diagram.{Diagram, Elements, Decomposition};
ghost use Rattle.sd_manager.specs.Table.{Table};
ghost use Rattle.sd_manager.specs.Shown.{ShowsCanonical};
ghost use Rattle.sd_manager.specs.Valid.{IsTable};
ghost use Rattle.sd_manager.specs.Views.{pairs_at};
ghost use Rattle.sd_manager.specs.Marking.{AreUnmarked};
ghost use Rattle.sd_sweep.specs.Chained.{DifferInMarks, IsLinked, Lengthens, StandsBefore};
ghost use Rattle.sd_sweep.specs.Chained.{HasChain, IsChainUnder};

use sd_manager::{Manager, NodeId, View};

// Chains the decompositions under one, itself first, where no node has a mark. Answers how many they are, and how many
// elements they have together. The chain is the queue of what is still to be visited, so each is visited once.
pub(crate) fn chain_below(m: &mut Manager, first: NodeId) -> (u32, u32)
    requires table { IsTable m.old }
    requires unmarked { AreUnmarked m.old }
    requires code { 2050 ≤ first }
    requires shown { (d : Diagram) × ShowsCanonical m.old first d }
    ensures chain { IsChainUnder m.old m.new first result.0 result.1 }
    ensures table { IsTable m.new }
{
    m.set_mark(first.number(), 1);
    let mut here = first;
    let mut last = first;
    let mut nodes = 0;
    let mut total = 0;
    while here.is_decomposition() {
        let count = element_count(m, here);
        last = chain_elements(m, here, count, last);
        let next = m.mark(here.number());
        nodes += 1;
        total += count;
        here = NodeId(next);
    }
    (nodes, total)
}

// The number of elements of a decomposition.
#[inline(always)]
fn element_count(m: &Manager, node: NodeId) -> u32
    requires shown { (p : ℕ) × (es : Elements) × ShowsCanonical m.now node (Decomposition p es) }
    requires table { IsTable m.now }
    ensures { result ≡ length (pairs_at m.now node) }
{
    match m.view(node) {
        View::Constant(_) => 0,
        View::Literal(_) => 0,
        View::Decomposition { count, .. } => count,
    }
}

// Puts the decompositions among the primes and subs of a node behind the last one, where they are not in the chain, and
// answers the one that is the last then.
#[inline(always)]
fn chain_elements(m: &mut Manager, node: NodeId, count: u32, last: NodeId) -> NodeId
    requires table { IsTable m.old }
    requires count { length (pairs_at m.old node) ≡ count }
    requires shown { (p : ℕ) × (es : Elements) × ShowsCanonical m.old node (Decomposition p es) }
    requires last { IsLinked m.old last }
    ensures rest { DifferInMarks m.old m.new }
    ensures last { IsLinked m.new result }
    ensures chain { Lengthens m.old m.new last result (StandsBefore (pairs_at m.old node) count) }
    ensures table { IsTable m.new }
{
    let mut end = last;
    for index in 0..count {
        let (prime, sub) = m.element(node, index);
        let middle = chain_node(m, prime, end);
        end = chain_node(m, sub, middle);
    }
    end
}

// The same for one node.
#[inline(always)]
fn chain_node(m: &mut Manager, node: NodeId, last: NodeId) -> NodeId
    requires table { IsTable m.old }
    requires node { 2050 ≤ node → IsLinked m.old node }
    requires last { IsLinked m.old last }
    ensures rest { DifferInMarks m.old m.new }
    ensures last { IsLinked m.new result }
    ensures chain { Lengthens m.old m.new last result (λ c. c ≡ node) }
    ensures table { IsTable m.new }
{
    if !node.is_decomposition() {
        return last;
    }
    let number = node.number();
    if m.mark(number) != 0 {
        return last;
    }
    m.set_mark(last.number(), node.0);
    m.set_mark(number, 1);
    node
}

// Takes the marks off the nodes that are chained from one on.
pub(crate) fn unchain(m: &mut Manager, first: NodeId, nodes: u32)
    requires table { IsTable m.old }
    requires chain { (t : Table) × AreUnmarked t × HasChain t m.old first nodes }
    ensures back { (t : Table) → AreUnmarked t → HasChain t m.old first nodes → m.new ≡ t }
    ensures table { IsTable m.new }
{
    let mut here = first;
    for _step in 0..nodes {
        let number = here.number();
        let next = m.mark(number);
        m.set_mark(number, 0);
        here = NodeId(next);
    }
}
