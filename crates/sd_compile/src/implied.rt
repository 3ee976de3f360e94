// Groups that a node implies already: to join one of them changes nothing.
//
// An operation makes the node of such a group and goes down every element whose prime it meets, and finds at last that
// all stay as they are. Here the node is read alone, under the assignments that give all literals one truth value.
// Where it is false under each that makes none of them hold, it implies their clause. Where it is false too under each
// that makes two literals hold, it implies their exclusive or. A decomposition is false, where of each element the
// prime or the sub is. Below a vtree node without leaves of the literals no node that is no constant is, so the way
// goes along these leaves alone. What is found is not kept, so a node is read again on each way to it: the search ends
// without an answer once about as many decompositions were read as there are vtree nodes.
ghost use Rattle.std.specs.Prelude.{◌≡◌, ◌≤◌, ◌<◌, List, Bool, false, length, map, IsTrue};
ghost use Rattle.sd_model.specs.Assignment.{literal_holds};
ghost use Rattle.sd_manager.specs.Valid.{IsTable};
ghost use Rattle.sd_manager.specs.Shown.{IsNodeOf};
ghost use Rattle.sd_compile.specs.Joined.{HaveValue, IsFalseBeside, ImpliesOdd, literal_of_place};

use sd_manager::{Manager, NodeId, View};

/// Whether it is found within the steps that a node implies the clause of literals, which stand behind the positions of
/// their leaves.
pub(crate) fn implies(m: &Manager, node: NodeId, clause: &[(u32, i32)]) -> bool
    requires node { IsNodeOf m.now node }
    ensures { IsTrue result → IsFalseBeside m.now node clause.now false }
{
    is_false_where(m, node, clause, false)
}

/// The same of the exclusive or of two literals.
pub(crate) fn implies_one(m: &Manager, node: NodeId, pair: &[(u32, i32)]) -> bool
    requires node { IsNodeOf m.now node }
    requires two { length pair.now ≡ 2 }
    ensures { IsTrue result → ImpliesOdd m.now node (map literal_of_place pair.now) }
{
    is_false_where(m, node, pair, false) && is_false_where(m, node, pair, true)
}

// Whether it is found that a node is false wherever all of the literals hold, or wherever none of them does.
fn is_false_where(m: &Manager, node: NodeId, literals: &[(u32, i32)], holds: bool) -> bool
    requires node { IsNodeOf m.now node }
    ensures { IsTrue result → IsFalseBeside m.now node literals.now holds }
{
    let mut steps = 2 * m.vtree().variables();
    is_false_beside(m, node, literals, holds, 0, literals.len(), &mut steps)
}

// The same in so many steps at most. The literals from one index to another one are the only ones that may be of leaves
// below the node.
fn is_false_beside(
    m: &Manager,
    node: NodeId,
    literals: &[(u32, i32)],
    holds: bool,
    from: usize,
    to: usize,
    steps: &mut u32,
) -> bool
    requires table { IsTable m.now }
    requires node { IsNodeOf m.now node }
    requires within { to ≤ length literals.now }
    ensures implies { IsTrue result → IsFalseBeside m.now node literals.now holds }
    ensures steps { steps.new ≤ steps.old }
{
    let (place, count) = match m.view(node) {
        View::Constant(value) => return !value,
        View::Literal(literal) => return is_false_literal(literals, holds, from, to, literal),
        View::Decomposition { place, count } => (place, count),
    };
    if from >= to || *steps == 0 {
        return false;
    }
    *steps -= 1;
    let split = first_behind(literals, from, to, m.vtree().position(place));
    for index in 0..count {
        let (prime, sub) = m.element(node, index);
        if !is_false_beside(m, sub, literals, holds, split, to, steps)
            && !is_false_beside(m, prime, literals, holds, from, split, steps)
        {
            return false;
        }
    }
    true
}

// Whether a literal is false where those from one index to another one hold, or where none of these does.
fn is_false_literal(
    literals: &[(u32, i32)],
    holds: bool,
    from: usize,
    to: usize,
    literal: i32,
) -> bool
    requires { to ≤ length literals.now }
    ensures { IsTrue result → (a : List Bool) → HaveValue literals.now holds a →
        literal_holds a literal ≡ false }
{
    for index in from..to {
        let (_, other) = literals[index];
        if makes_false(other, holds, literal) {
            return true;
        }
    }
    false
}

// Whether a literal is false where another one holds, or where that one does not.
fn makes_false(other: i32, holds: bool, literal: i32) -> bool
    ensures { IsTrue result → (a : List Bool) → literal_holds a other ≡ holds →
        literal_holds a literal ≡ false }
{
    if other == literal {
        return !holds;
    }
    holds && other.unsigned_abs() == literal.unsigned_abs()
}

// The index of the first literal whose leaf stands behind a position, from one index to another one.
fn first_behind(literals: &[(u32, i32)], from: usize, to: usize, position: u32) -> usize
    requires { to ≤ length literals.now }
    ensures { result ≤ to }
{
    for index in from..to {
        if position < literals[index].0 {
            return index;
        }
    }
    to
}
