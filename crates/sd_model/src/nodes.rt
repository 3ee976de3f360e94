// The distinct diagrams under some roots, in the order in which they are first complete: the list that the text and the
// size stand on. It walks each root as a tree and looks each node up by comparison, so it is for small diagrams.

ghost use Rattle.std.specs.Prelude.{◌≡◌, ◌∷◌, [], map, OnOk, IfOk};
ghost use Rattle.sd_model.specs.Listing.{add};
ghost use Rattle.sd_model.specs.Size.{walk, walk_elements, completed};
ghost use Rattle.sd_model.specs.Text.{index_of};
ghost use Rattle.sd_model.specs.Seen.{diagram_of, elements_of, diagrams_of};

use crate::diagrams::{Diagram, Element, compare};
use std::alloc::{AllocError, Global};
use std::cmp::Ordering;

/// The distinct diagrams under the roots. Each stands behind those under it, and before those that later roots add.
#[tactic(auto, using(crate::proofs::NodeSteps::add_root, crate::proofs::Adding::completed_walks))]
pub fn nodes_of<'a>(alloc: Global, roots: &'a [Diagram]) -> Result<Vec<&'a Diagram>, AllocError>
    ensures { IfOk result (λ nodes.
        diagrams_of nodes.items ≡ completed (map diagram_of roots.now)) }
{
    let mut nodes = Vec::new(alloc);
    for root in roots {
        add_diagram(&mut nodes, root)?;
    }
    Ok(nodes)
}

/// The index of a diagram in a list, or the list's length.
#[tactic(auto, using(crate::proofs::NodeSteps::index_here, crate::proofs::NodeSteps::index_later))]
pub fn find_index(nodes: &[&Diagram], d: &Diagram) -> usize
    ensures { result ≡ index_of (diagram_of d.now) (diagrams_of nodes.now) }
{
    for (i, node) in nodes.iter().enumerate() {
        if compare(d, node) == Ordering::Equal {
            return i;
        }
    }
    nodes.len()
}

// Adds the diagrams under a diagram, and then itself, where the list lacks them.
#[cycle(add)]
#[tactic(auto, using(crate::proofs::NodeSteps::add_decomposition))]
fn add_diagram<'a>(nodes: &mut Vec<&'a Diagram>, d: &'a Diagram) -> Result<(), AllocError>
    ensures { OnOk result (diagrams_of nodes.new.items
        ≡ add (diagrams_of nodes.old.items) (walk (diagram_of d.now))) }
{
    match d {
        Diagram::Decomposition { elements, .. } => {
            add_elements(nodes, elements)?;
            add_node(nodes, d)
        }
        _ => add_node(nodes, d),
    }
}

// Adds the diagrams under the primes and subs, each prime before its sub.
#[cycle(add)]
#[tactic(auto, using(crate::proofs::NodeSteps::add_element))]
fn add_elements<'a>(nodes: &mut Vec<&'a Diagram>, elements: &'a [Element]) -> Result<(), AllocError>
    ensures { OnOk result (diagrams_of nodes.new.items
        ≡ add (diagrams_of nodes.old.items) (walk_elements (elements_of elements.now))) }
{
    for element in elements {
        add_diagram(nodes, &element.prime)?;
        add_diagram(nodes, &element.sub)?;
    }
    Ok(())
}

// Adds a diagram where the list lacks it.
#[tactic(auto, using(crate::proofs::NodeSteps::add_new, crate::proofs::NodeSteps::add_old))]
fn add_node<'a>(nodes: &mut Vec<&'a Diagram>, d: &'a Diagram) -> Result<(), AllocError>
    ensures { OnOk result (diagrams_of nodes.new.items
        ≡ add (diagrams_of nodes.old.items) (diagram_of d.now ∷ [])) }
{
    if find_index(nodes, d) == nodes.len() {
        nodes.push(d)?;
    }
    Ok(())
}
