//! The text of the diagrams that roots show.

ghost use Rattle.std.specs.Prelude.{◌≡◌, ◌≤◌, List, ◌∷◌, [], ◌++◌, length, IfOk, OnOk};
ghost use Rattle.std.specs.FinMap.{get};
ghost use Rattle.std.specs.List.{AllByRecursion, AllZip, flat_map};
ghost use Rattle.sd_model.specs.Diagram.{Diagram, Elements, Literal};
ghost use Rattle.sd_model.specs.Listing.{add};
ghost use Rattle.sd_model.specs.Size.{walk, walk_elements, completed};
ghost use Rattle.sd_model.specs.Text.{sdd_text, roots_text, number_text};
ghost use Rattle.sd_model.specs.Tree.{leaves};
ghost use Rattle.sd_vtree.specs.Numbered.{plain_tree};
ghost use Rattle.sd_laws.specs.Shown.{ShowElements};
ghost use Rattle.sd_manager.specs.declared.view.View.TheVariants.{Literal as LiteralView};
ghost use Rattle.sd_manager.specs.Shown.{Shows, ShowsCanonical, IsNodeOf, HoldsDiagram};
ghost use Rattle.sd_manager.specs.Valid.{IsTable};
ghost use Rattle.sd_manager.specs.Views.{IsViewOf};
ghost use Rattle.sd_file.specs.Lines.{HasNodeLines, CanBeWalked, BothCanBeWalked};
ghost use Rattle.sd_file.specs.Ordered.{list_of};
ghost use Rattle.sd_file.specs.RoundTrip.{ReadsBack, IsLastOf};

use crate::known::Ordered;
use crate::lines::{Leaf, Listing, push_feed, push_naming, push_number};
use crate::order::in_order;
use sd_base::Bytes;
use sd_manager::{Manager, NodeId, Root, View};
use std::alloc::{AllocError, Global};
use std::slice;

/// The text of the diagram that a root shows, in the form of the SDD Package 2.0: the line `sdd N`, then a line for
/// each of the N distinct diagrams in it, numbered from 0 in the order in which they are first complete. Its own line
/// is the last, and the text is read back as a file with the diagram's value. Each walk visits a node once. The only
/// error is running out of memory.
pub fn write_sdd(alloc: Global, m: &Manager, root: &Root) -> Result<Bytes, AllocError>
    requires held { (d : Diagram) × HoldsDiagram m.now root.now d }
    ensures text { IfOk result (λ text. (d : Diagram) → HoldsDiagram m.now root.now d
        → text ≡ sdd_text d) }
    ensures read_back { IfOk result (λ text. (d : Diagram) → HoldsDiagram m.now root.now d →
        ReadsBack (leaves (plain_tree m.now.vtree)) text d) }
{
    let node = m.node_of(root);
    write_nodes(alloc, m, slice::from_ref(&node))
}

/// The text of the diagrams that one or more nodes show, the roots, in one numbering: the distinct diagrams in all of
/// them are numbered as in `write_sdd`, root by root. Where there are two or more roots, the lines `c root I ID`
/// follow, which tell the number of the diagram of each root I, counted from 0. The text is read back as a file with
/// the value of the diagram that is complete last, which need not be the last root's. Each walk visits a node once,
/// however many roots share it. The only error is running out of memory.
pub fn write_nodes(alloc: Global, m: &Manager, nodes: &[NodeId]) -> Result<Bytes, AllocError>
    requires some { 1 ≤ length nodes.now }
    requires shown { AllByRecursion (IsNodeOf m.now) nodes.now }
    ensures text { IfOk result (λ text. (ds : List Diagram)
        → AllZip (ShowsCanonical m.now) nodes.now ds → text ≡ roots_text ds) }
    ensures read_back { IfOk result (λ text. (ds : List Diagram)
        → AllZip (ShowsCanonical m.now) nodes.now ds → (d : Diagram) → IsLastOf (completed ds) d →
        ReadsBack (leaves (plain_tree m.now.vtree)) text d) }
{
    let ordered = in_order(alloc, m, nodes)?;
    let mut listing = Listing::new(alloc);
    add_roots(m, &ordered, nodes, m.vtree().variables(), &mut listing)?;
    let mut text = header(alloc, listing.numbers.count())?;
    text.extend_from_slice(&listing.text)?;
    push_naming(&mut text, &listing.numbers, nodes)?;
    Ok(Bytes::new(text))
}

// The first line of a text with so many nodes.
fn header(alloc: Global, count: u32) -> Result<Vec<u8>, AllocError>
    ensures { IfOk result (λ v. v.items ≡ (115 ∷ 100 ∷ 100 ∷ []) ++ 32 ∷ number_text count ++ 10
        ∷ []) }
{
    let mut text = Vec::from_slice(alloc, b"sdd")?;
    push_number(&mut text, u64::from(count))?;
    push_feed(&mut text)?;
    Ok(text)
}

// Writes the lines of the nodes at and below roots, one root after another.
fn add_roots(
    m: &Manager,
    ordered: &Ordered,
    nodes: &[NodeId],
    levels: u32,
    listing: &mut Listing,
) -> Result<(), AllocError>
    requires table { IsTable m.now }
    requires shown { AllByRecursion (CanBeWalked m.now (list_of ordered.now) levels) nodes.now }
    requires written { (ds : List Diagram) × HasNodeLines m.now listing.old ds }
    ensures { (roots ds : List Diagram) → AllZip (ShowsCanonical m.now) nodes.now roots
        → HasNodeLines m.now listing.old ds →
        OnOk result (HasNodeLines m.now listing.new (add ds (flat_map walk roots))) }
{
    for node in nodes {
        add_node(m, ordered, *node, levels, listing)?;
    }
    Ok(())
}

// Writes the lines of the nodes below a node, and then its own, where they lack one. The node shows a diagram of at
// most so many levels of decompositions.
#[cycle(add)]
fn add_node(
    m: &Manager,
    ordered: &Ordered,
    node: NodeId,
    levels: u32,
    listing: &mut Listing,
) -> Result<(), AllocError>
    requires table { IsTable m.now }
    requires shown { CanBeWalked m.now (list_of ordered.now) levels node }
    requires written { (ds : List Diagram) × HasNodeLines m.now listing.old ds }
    ensures { (d : Diagram) (ds : List Diagram) → Shows m.now node d
        → HasNodeLines m.now listing.old ds →
        OnOk result (HasNodeLines m.now listing.new (add ds (walk d))) }
{
    if listing.numbers.has(node.0) {
        return Ok(());
    }
    match m.view(node) {
        View::Constant(value) => listing.add_constant(node, value),
        View::Literal(literal) => listing.add_literal(node, leaf_of(m, literal)),
        View::Decomposition { place, .. } => {
            let elements = ordered.elements(node);
            add_elements(m, ordered, elements, levels - 1, listing)?;
            listing.add_decomposition(node, m.vtree().position(place), elements)
        }
    }
}

// Writes the lines of the nodes below pairs, each prime before its sub.
#[cycle(add)]
fn add_elements(
    m: &Manager,
    ordered: &Ordered,
    elements: &[(NodeId, NodeId)],
    levels: u32,
    listing: &mut Listing,
) -> Result<(), AllocError>
    requires table { IsTable m.now }
    requires shown { AllByRecursion (BothCanBeWalked m.now (list_of ordered.now) levels)
        elements.now }
    requires written { (ds : List Diagram) × HasNodeLines m.now listing.old ds }
    ensures { (es : Elements) (ds : List Diagram)
        → ShowElements m.now.vtree (get m.now.linked) elements.now es →
        HasNodeLines m.now listing.old ds
        → OnOk result (HasNodeLines m.now listing.new (add ds (walk_elements es))) }
{
    for element in elements {
        add_node(m, ordered, element.0, levels, listing)?;
        add_node(m, ordered, element.1, levels, listing)?;
    }
    Ok(())
}

// The literal of the vtree, as DIMACS has it, at its leaf.
fn leaf_of(m: &Manager, literal: i32) -> Leaf
    requires table { IsTable m.now }
    requires shown { (d : Diagram) × IsViewOf m.now (LiteralView literal) d }
    ensures { (d : Diagram) → IsViewOf m.now (LiteralView literal) d →
        Literal result.position result.variable result.positive ≡ d }
{
    let variable = literal.unsigned_abs();
    let vtree = m.vtree();
    Leaf {
        position: vtree.position(vtree.leaf(variable)),
        variable,
        positive: literal > 0,
    }
}
