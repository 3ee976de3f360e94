//! The records of the diagram that a root shows.

ghost use Rattle.std.specs.Prelude.{◌≡◌, ℕ, ◌≤◌, Bool, List, length, Some, IfOk, OnOk};
ghost use Rattle.std.specs.FinMap.{get};
ghost use Rattle.std.specs.List.{AllByRecursion};
ghost use Rattle.sd_model.specs.Diagram.{Diagram, Elements, Decomposition};
ghost use Rattle.sd_vtree.specs.Numbered.{plain_tree};
ghost use Rattle.sd_laws.specs.Depth.{depth};
ghost use Rattle.sd_manager.specs.Shown.{HoldsDiagram, ShowsCanonical};
ghost use Rattle.sd_manager.specs.Valid.{IsTable};
ghost use Rattle.sd_manager.specs.Views.{pairs_at};
ghost use Rattle.sd_apply.specs.Answers.{HasAnswer};
ghost use Rattle.sd_records.specs.Records.{AreRecords, UnfoldsCanonical, UnfoldToValue};
ghost use Rattle.sd_records.specs.Listed.{AreListed, KeepsMarks, IsListed, BothListed, IsShownWithin};

use crate::listing::Listing;
use crate::records::Records;
use sd_manager::{Manager, NodeId, Root, View};
use std::alloc::{AllocError, Global};

/// The records of the diagram that a root shows: an entry for each distinct decomposition in it, behind those below it.
/// Each node is visited once. The only error is running out of memory.
pub fn export(alloc: Global, m: &Manager, root: &Root) -> Result<Records, AllocError>
    requires held { (d : Diagram) × HoldsDiagram m.now root.now d }
    ensures records { IfOk result (λ r. AreRecords (plain_tree m.now.vtree) r) }
    ensures shown { IfOk result (λ r. (d : Diagram) → HoldsDiagram m.now root.now d
        → UnfoldsCanonical (plain_tree m.now.vtree) r.entries r.root d) }
    ensures value { IfOk result (λ r. (c : ℕ) (f : List Bool → Bool)
        → get m.now.roots root.now ≡ Some c → HasAnswer m.now f c
        → UnfoldToValue (plain_tree m.now.vtree) r f) }
{
    let node = m.node_of(root);
    let mut listing = Listing::new(alloc);
    add_node(m, node, m.vtree().variables(), &mut listing)?;
    Ok(listing.into_records(node))
}

// Adds the entries of the nodes at and below a node that shows a diagram of at most so many levels of decompositions,
// where they have none.
#[cycle(add)]
fn add_node(m: &Manager, node: NodeId, levels: u32, listing: &mut Listing) -> Result<(), AllocError>
    requires table { IsTable m.now }
    requires shown { IsShownWithin m.now levels node }
    requires listed { AreListed m.now listing.old }
    ensures listed { OnOk result (AreListed m.now listing.new) }
    ensures kept { OnOk result (KeepsMarks listing.old listing.new) }
    ensures node { OnOk result (IsListed listing.new.marks.items node) }
{
    if listing.has(node) {
        return Ok(());
    }
    match m.view(node) {
        View::Constant(_) => Ok(()),
        View::Literal(_) => Ok(()),
        View::Decomposition { place, count } => {
            add_below(m, node, count, levels, listing)?;
            listing.add(m, node, m.vtree().position(place), count)
        }
    }
}

// The same below a decomposition with this number of elements.
#[cycle(add)]
fn add_below(
    m: &Manager,
    node: NodeId,
    count: u32,
    levels: u32,
    listing: &mut Listing,
) -> Result<(), AllocError>
    requires table { IsTable m.now }
    requires count { length (pairs_at m.now node) ≡ count }
    requires shown { (p : ℕ) × (es : Elements) × ShowsCanonical m.now node (Decomposition p es)
        × (depth (Decomposition p es) ≤ levels) }
    requires listed { AreListed m.now listing.old }
    ensures listed { OnOk result (AreListed m.now listing.new) }
    ensures kept { OnOk result (KeepsMarks listing.old listing.new) }
    ensures elements { OnOk result
        (AllByRecursion (BothListed listing.new.marks.items) (pairs_at m.now node)) }
{
    for index in 0..count {
        let (prime, sub) = m.element(node, index);
        add_node(m, prime, levels - 1, listing)?;
        add_node(m, sub, levels - 1, listing)?;
    }
    Ok(())
}
