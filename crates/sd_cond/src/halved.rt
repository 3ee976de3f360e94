// A node at a vtree node whose left child is a leaf.
use sd_apply::Split;
use sd_manager::NodeId;
use sd_vtree::VNode;

/// A decomposition by its halves: what it is where the leaf's variable is true, and where it is false.
#[derive(Drop)]
pub(crate) struct Halved {
    /// The vtree node at which it stands.
    pub(crate) node: VNode,
    /// The children of that, and the variable of the left one.
    pub(crate) split: Split,
    /// Both halves.
    pub(crate) halves: (NodeId, NodeId),
}
