// Laws of the definitions: functions whose contracts state a fact, and that do nothing.

ghost use Rattle.std.specs.Prelude.{◌≡◌, ◌≢◌, ◌↔◌, ◌≤◌, ℕ, Bool, true, List, map, length, IsSome};
ghost use Rattle.std.specs.Option.{option_and_then};
ghost use Rattle.std.specs.Ordering.{ordering_reverse};
ghost use Rattle.std.specs.declared.cmp.Ordering.TheVariants.{Less, Equal};
ghost use Rattle.sd_model.specs.Circuit.{Circuit, wire_holds, is_valuation, output_literal};
ghost use Rattle.sd_model.specs.Expression.{OutputOf, expression_value};
ghost use Rattle.sd_model.specs.Moves.{moved, inverse_move};
ghost use Rattle.sd_model.specs.Tree.{IsVtree, leaves};
ghost use Rattle.sd_model.specs.Diagram.{meaning, diagram_cmp, Bottom};
ghost use Rattle.sd_model.specs.Canonical.{IsCanonical};
ghost use Rattle.sd_model.specs.Seen.{tree_of, diagram_of};
ghost use Rattle.sd_model.specs.Text.{roots_text};

use crate::diagrams::Diagram;
use crate::trees::{Move, Side, Tree};

/// Two canonical diagrams of one vtree that have the same value under every assignment are equal (Darwiche 2011).
#[tactic(auto, using(crate::proofs::OverVtree::unique_lem))]
pub fn unique(tree: &Tree, a: &Diagram, b: &Diagram)
    requires vtree { IsVtree (tree_of tree.now) }
    requires first_canonical { IsCanonical (tree_of tree.now) 0 (diagram_of a.now) }
    requires second_canonical { IsCanonical (tree_of tree.now) 0 (diagram_of b.now) }
    requires same_value { (values : List Bool) → length values ≡ leaves (tree_of tree.now)
        → meaning (diagram_of a.now) values ≡ meaning (diagram_of b.now) values }
    ensures { diagram_of a.now ≡ diagram_of b.now }
{}

/// A canonical diagram that is not false is true under some assignment.
#[tactic(auto, using(crate::proofs::OverVtree::satisfiable_lem))]
pub fn satisfiable(tree: &Tree, a: &Diagram)
    requires vtree { IsVtree (tree_of tree.now) }
    requires canonical { IsCanonical (tree_of tree.now) 0 (diagram_of a.now) }
    requires not_false { diagram_of a.now ≢ Bottom }
    ensures { (values : List Bool) × (length values ≡ leaves (tree_of tree.now))
        × (meaning (diagram_of a.now) values ≡ true) }
{}

/// Two lists of roots with equal texts are equal. They need not be canonical, so the tree plays no part.
#[tactic(auto, using(crate::proofs::TextBack::roots_text_back))]
pub fn text_injective(tree: &Tree, a: &[Diagram], b: &[Diagram])
    requires first_some { 1 ≤ length a.now }
    requires second_some { 1 ≤ length b.now }
    requires same_text { roots_text (map diagram_of a.now) ≡ roots_text (map diagram_of b.now) }
    ensures { map diagram_of a.now ≡ map diagram_of b.now }
{}

/// A move that is defined, followed by its inverse at the same place, gives back the tree.
pub fn inverse(tree: &Tree, place: &[Side], kind: Move)
    requires { IsSome (moved kind (tree_of tree.now) place.now) }
    ensures { option_and_then (λ m. moved (inverse_move kind) m place.now)
        (moved kind (tree_of tree.now) place.now) ≡ Some (tree_of tree.now) }
{}

/// The structural order is a strict total order on all diagrams: of two of them one is less, or they are equal.
#[tactic(auto, using(crate::proofs::Order::order_laws))]
pub fn total_order(a: &Diagram, b: &Diagram, c: &Diagram)
    ensures equal { (diagram_cmp (diagram_of a.now) (diagram_of b.now) ≡ Equal)
        ↔ (diagram_of a.now ≡ diagram_of b.now) }
    ensures antisymmetric { diagram_cmp (diagram_of b.now) (diagram_of a.now)
        ≡ ordering_reverse (diagram_cmp (diagram_of a.now) (diagram_of b.now)) }
    ensures transitive { diagram_cmp (diagram_of a.now) (diagram_of b.now) ≡ Less
        → diagram_cmp (diagram_of b.now) (diagram_of c.now) ≡ Less
        → diagram_cmp (diagram_of a.now) (diagram_of c.now) ≡ Less }
{}

/// An output of a circuit is true under an assignment of the inputs just where its literal is true in every valuation
/// of the circuit's text. A valuation gives each of the circuit's variables a truth value; each input has the value of
/// the assignment's variable of its number, and each and-line defines the conjunction of its two right sides.
#[tactic(auto, using(crate::proofs::Valuations::in_every_valuation))]
pub fn output_in_every_valuation()
    ensures { (circuit : Circuit) (output : ℕ) (assignment : List Bool)
        → (expression_value (OutputOf circuit output) assignment ≡ true)
        ↔ ((values : List Bool) → length values ≡ circuit.variables
        → is_valuation circuit assignment values ≡ true
        → wire_holds values (output_literal circuit output) ≡ true) }
{}
