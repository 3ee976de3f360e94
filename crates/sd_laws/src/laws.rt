//! The main laws of canonical diagrams, of the codes that show them, and of vtrees that are moved: functions whose
//! contracts state a fact. Most do nothing; where one computes, its clauses are the law at what it answers.
//!
//! Sources: Darwiche, "SDD: A New Canonical Representation of Propositional Knowledge Bases", IJCAI 2011 (canonical
//! diagrams, partitions and operations on them); Choi and Darwiche, "Dynamic Minimization of Sentential Decision
//! Diagrams", AAAI 2013 (moves of a vtree). The laws of codes, and those by values, are of this project.

ghost use Rattle.std.specs.Prelude.{◌≡◌, ◌≢◌, ℕ, ◌+◌, Bool, true, not, ◌||◌, List, ◌∷◌};
ghost use Rattle.std.specs.Prelude.{◌++◌, ◌↔◌, ◌<◌, map, length, Some, None, OnOk, OnErr, IsErr};
ghost use Rattle.std.specs.Option.{IsSome};
ghost use Rattle.sd_model.specs.Tree.{Tree, Node, IsVtree, AreDistinct, leaves, position};
ghost use Rattle.sd_model.specs.Diagram.{Diagram as TheDiagram, Decomposition, Elements, meaning};
ghost use Rattle.sd_model.specs.Diagram.{some_element, HasVariablesTo, HaveVariablesTo};
ghost use Rattle.sd_model.specs.Canonical.{IsCanonical, IsElement, true_primes};
ghost use Rattle.sd_model.specs.Seen.{diagram_of, elements_of};
ghost use Rattle.sd_model.specs.declared.trees.Move.TheVariants.{RotateLeft, RotateRight, Swap};
ghost use Rattle.sd_model.specs.Moves.{inverse_move};
ghost use Rattle.sd_vtree.specs.Numbered.{Numbered, IsNumbered, plain_tree, numbers};
ghost use Rattle.sd_vtree.specs.NumberedMoves.{moved_number};
ghost use Rattle.sd_laws.specs.Depends.{DependsOn};
ghost use Rattle.sd_laws.specs.Pairs.{answers, HasValue, IsOneTrue, IsPartition, IsCompressed};
ghost use Rattle.sd_laws.specs.Pairs.{join};
ghost use Rattle.sd_laws.specs.Parts.{IsPart, IsCanonicalForSome};
ghost use Rattle.sd_laws.specs.Products.{products};
ghost use Rattle.sd_laws.specs.Shown.{Lookup, Shows, ShowsCanonical, AreKeys, Keeps, IsPartitionAt};
ghost use Rattle.sd_laws.specs.Trimming.{trim_of};
ghost use Rattle.sd_laws.specs.Turned.{KeepsOthers, AreRotated, AreSwapped, lower_of};
ghost use Rattle.sd_laws.specs.Values.{Valuation, IsSame, AreOrderly, IsCodeOf, ShowsValue};

use sd_model::{Diagram, Element, Move, value_of};
use sd_vtree::{NotMovable, VNode, Vtree};

/// Two diagrams that are canonical for one part of a vtree and have the same value under every assignment are equal.
pub fn one_diagram()
    ensures { (whole part : Tree) (base : ℕ) (d e : TheDiagram) → IsVtree whole
        → IsPart part base whole 0 → IsCanonical part base d → IsCanonical part base e
        → IsSame (meaning d) (meaning e) → d ≡ e }
{}

/// What is canonical for a part of a tree is canonical for the tree, and what is canonical for a vtree and depends on
/// the variables of a part alone is canonical for the part.
pub fn canonical_for_parts()
    ensures above { (whole part : Tree) (base from : ℕ) (d : TheDiagram)
        → IsPart part base whole from → IsCanonical part base d → IsCanonical whole from d }
    ensures below { (whole part : Tree) (base : ℕ) (d : TheDiagram) → IsVtree whole
        → IsPart part base whole 0 → IsCanonical whole 0 d → DependsOn part (meaning d)
        → IsCanonical part base d }
{}

/// Under each assignment one element of a canonical decomposition has a true prime, no other has, and the decomposition
/// has the value of its sub.
pub fn one_prime()
    ensures some { (t : Tree) (base q : ℕ) (es : Elements) (a : List Bool)
        → IsCanonical t base (Decomposition q es)
        → (p : TheDiagram) × (s : TheDiagram) × IsElement p s es × (meaning p a ≡ true) }
    ensures exclusive { (t : Tree) (base q : ℕ) (es : Elements) (a : List Bool)
        (p s r u : TheDiagram) → IsCanonical t base (Decomposition q es) → IsElement p s es
        → IsElement r u es → meaning p a ≡ true → meaning r a ≡ true → (p ≡ r) × (s ≡ u) }
    ensures value { (t : Tree) (base q : ℕ) (es : Elements) (a : List Bool) (p s : TheDiagram)
        → IsCanonical t base (Decomposition q es) → IsElement p s es → meaning p a ≡ true
        → meaning (Decomposition q es) a ≡ meaning s a }
{}

/// The value of a canonical diagram, on one way down: at each decomposition it is that of the sub beside the only true
/// prime. The assignment has an entry for each variable of the diagram.
#[cycle(by_primes)]
#[tactic(auto, using(sd_model::proofs::SeenLemmas::seen_decomposition))]
pub fn value_by_primes(d: &Diagram, assignment: &[bool]) -> bool
    requires canonical { IsCanonicalForSome (diagram_of d.now) }
    requires in_range { HasVariablesTo (length assignment.now) (diagram_of d.now) }
    ensures { result ≡ meaning (diagram_of d.now) assignment.now }
{
    match d {
        Diagram::Decomposition { elements, .. } => value_of_chosen(elements, assignment),
        _ => value_of(d, assignment),
    }
}

// The value of the sub of the only element whose prime is true.
#[cycle(by_primes)]
fn value_of_chosen(elements: &[Element], assignment: &[bool]) -> bool
    requires canonical { (p s : TheDiagram) → IsElement p s (elements_of elements.now)
        → IsCanonicalForSome p × IsCanonicalForSome s }
    requires one_prime { true_primes (elements_of elements.now) assignment.now ≡ 1 }
    requires in_range { HaveVariablesTo (length assignment.now) (elements_of elements.now) }
    ensures { result ≡ some_element (elements_of elements.now) assignment.now }
{
    for element in elements {
        if value_by_primes(&element.prime, assignment) {
            return value_by_primes(&element.sub, assignment);
        }
    }
    false
}

/// A partition of a vtree node is trimmed to a diagram with its value, and where no two subs are equal, that diagram is
/// canonical for the node.
pub fn trimmed()
    ensures canonical { (whole l r : Tree) (base : ℕ) (ds : List (TheDiagram × TheDiagram))
        → IsVtree whole → IsPart (Node l r) base whole 0 → IsPartition l r base ds → IsCompressed ds
        → IsCanonical (Node l r) base (join (position (Node l r) base) ds) }
    ensures value { (p : ℕ) (ds : List (TheDiagram × TheDiagram)) → IsOneTrue ds
        → HasValue ds (meaning (join p ds)) }
{}

/// Two neighbours with one sub become one element, with the disjunction of their primes, and the value stays.
pub fn compressed()
    ensures { (before after : List (TheDiagram × TheDiagram)) (d e : TheDiagram × TheDiagram)
        (p : TheDiagram) (f : List Bool → Bool) → d.1 ≡ e.1
        → ((a : List Bool) → meaning p a ≡ (meaning d.0 a || meaning e.0 a))
        → HasValue (before ++ d ∷ e ∷ after) f → HasValue (before ++ (p, d.1) ∷ after) f }
{}

/// The products of two partitions have the value of the connective, and a partition with negated subs has the negated
/// value.
pub fn connected()
    ensures products { (op : Bool → Bool → Bool) (ds fs gs : List (TheDiagram × TheDiagram))
        (f g : List Bool → Bool) → HasValue ds f → HasValue fs g
        → ((a : List Bool) → answers a gs ≡ products op (answers a ds) (answers a fs))
        → HasValue gs (λ a. op (f a) (g a)) }
    ensures negated { (ds gs : List (TheDiagram × TheDiagram)) (f : List Bool → Bool)
        → HasValue ds f → ((a : List Bool) → answers a gs ≡ map not (answers a ds))
        → HasValue gs (λ a. not (f a)) }
{}

/// A code shows at most one diagram, and where no two nodes have one key, one diagram has at most one code, and one
/// function too.
pub fn one_code()
    ensures diagram { (t : Numbered) (at : Lookup) (c : ℕ) (d e : TheDiagram) → IsNumbered t
        → Shows t at c d → Shows t at c e → d ≡ e }
    ensures code { (t : Numbered) (at : Lookup) (c b : ℕ) (d : TheDiagram) → AreKeys at
        → Shows t at c d → Shows t at b d → c ≡ b }
    ensures function { (t : Numbered) (at : Lookup) (c b : ℕ) (d e : TheDiagram) → IsNumbered t
        → AreKeys at → ShowsCanonical t at c d → ShowsCanonical t at b e
        → IsSame (meaning d) (meaning e) → c ≡ b }
{}

/// The code to which the pairs of a partition are trimmed shows a canonical diagram with its value, and so does a node
/// that has these pairs where they are not trimmed and no two subs have one code.
pub fn node_of_partition()
    ensures trimmed { (t : Numbered) (at : Lookup) (u c : ℕ) (pairs : List (ℕ × ℕ))
        (ds : List (TheDiagram × TheDiagram)) → IsNumbered t → IsPartitionAt t at u pairs ds
        → trim_of pairs ≡ Some c
        → (z : TheDiagram) × ShowsCanonical t at c z × HasValue ds (meaning z) }
    ensures untrimmed { (t : Numbered) (old new : Lookup) (u n : ℕ) (pairs : List (ℕ × ℕ))
        (ds : List (TheDiagram × TheDiagram)) → IsNumbered t → AreKeys old
        → IsPartitionAt t old u pairs ds → AreDistinct (map (λ e. e.1) pairs) → trim_of pairs ≡ None
        → Keeps old new → new n ≡ Some (u, pairs)
        → (z : TheDiagram) × ShowsCanonical t new (2050 + n) z × HasValue ds (meaning z) }
{}

/// All nodes show canonical diagrams exactly where their lists are compressed and trimmed partitions of their places by
/// the values of their codes, which are then those of the diagrams.
pub fn canonical_by_values()
    ensures shown { (t : Numbered) (at : Lookup) (v : Valuation) (c : ℕ) → IsNumbered t → AreKeys at
        → AreOrderly t at (λ n. IsSome (at n)) v → IsCodeOf t at (λ n. IsSome (at n)) c
        → ShowsValue t at v c }
    ensures orderly { (t : Numbered) (at : Lookup) → IsNumbered t
        → ((n : ℕ) → IsSome (at n) → (d : TheDiagram) × ShowsCanonical t at (2050 + n) d)
        → (v : Valuation) × AreOrderly t at (λ n. IsSome (at n)) v
        × ((c : ℕ) (d : TheDiagram) → ShowsCanonical t at c d → IsSame (meaning d) (v c)) }
{}

/// Where no node stands at the two places that a move turns, each code that shows a canonical diagram shows one of the
/// same function for the moved vtree.
pub fn functions_stay()
    ensures { (t u : Numbered) (upper lower : ℕ) (at : Lookup) (c : ℕ) (d : TheDiagram)
        → IsNumbered t → IsNumbered u → leaves (plain_tree u) ≡ leaves (plain_tree t)
        → KeepsOthers t u upper lower → AreKeys at
        → ((n place : ℕ) (l : List (ℕ × ℕ)) → at n ≡ Some (place, l)
        → (place ≢ upper) × (place ≢ lower))
        → ShowsCanonical t at c d
        → (e : TheDiagram) × ShowsCanonical u at c e × IsSame (meaning e) (meaning d) }
{}

/// The lower node of a move at a node: the left child for the right rotation, the right child for the left one. A swap
/// has none.
pub fn lower(tree: &Vtree, node: VNode, kind: Move) -> Option<VNode>
    requires { node < length (numbers tree.now) }
    ensures { result ≡ lower_of kind tree.now node }
{
    let (left, right) = tree.children(node)?;
    match kind {
        Move::RotateRight => Some(left),
        Move::RotateLeft => Some(right),
        Move::Swap => None,
    }
}

/// Moves a vtree at a node. A rotation leads from `((a b) c)` to `(a (b c))` there, or back, where both have one lower
/// node, and a swap from `(a b)` to `(b a)`; each other inner node keeps its number and its children's variables.
///
/// Not movable where the node has not the form of the move.
pub fn turn(tree: &mut Vtree, node: VNode, kind: Move) -> Result<(), NotMovable>
    requires { node < length (numbers tree.old) }
    ensures right { kind ≡ RotateRight → OnOk result ((w : ℕ)
        × (lower_of kind tree.old node ≡ Some w) × AreRotated tree.old tree.new node w) }
    ensures left { kind ≡ RotateLeft → OnOk result ((w : ℕ)
        × (lower_of kind tree.old node ≡ Some w) × AreRotated tree.new tree.old node w) }
    ensures swap { kind ≡ Swap → OnOk result (AreSwapped tree.old tree.new node) }
    ensures moved { OnOk result (moved_number kind tree.old node ≡ Some tree.new) }
    ensures not_movable { IsErr result ↔ (moved_number kind tree.old node ≡ None) }
    ensures unchanged { OnErr result (tree.new ≡ tree.old) }
    ensures count { length (numbers tree.new) ≡ length (numbers tree.old) }
{
    // `position` promises that the vtree is numbered.
    let _ = tree.position(node);
    match kind {
        Move::RotateRight => tree.rotate_right(node),
        Move::RotateLeft => tree.rotate_left(node),
        Move::Swap => tree.swap(node),
    }
}

/// A move at a node, and behind it the inverse move there, lead back to the vtree with the numbers of all its nodes.
/// Answers whether the move is defined there.
pub fn there_and_back(tree: &mut Vtree, node: VNode, kind: Move) -> bool
    requires { node < length (numbers tree.old) }
    ensures back { tree.new ≡ tree.old }
    ensures defined { result ≡ true ↔ IsSome (moved_number kind tree.old node) }
{
    // `position` promises that the vtree is numbered.
    let _ = tree.position(node);
    match turn(tree, node, kind) {
        Err(NotMovable) => false,
        Ok(()) => turn(tree, node, inverse(kind)).is_ok(),
    }
}

// The move that undoes another.
fn inverse(kind: Move) -> Move
    ensures { result ≡ inverse_move kind }
{
    match kind {
        Move::RotateRight => Move::RotateLeft,
        Move::RotateLeft => Move::RotateRight,
        Move::Swap => Move::Swap,
    }
}
