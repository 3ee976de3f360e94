// What the operations are asked for, with the leaf that they go down to.
use sd_vtree::VNode;

/// A variable that is forgotten.
#[derive(Clone, Copy, Drop)]
pub(crate) struct Variable {
    /// Its number, from 1.
    pub(crate) number: u32,
    /// Its leaf of the vtree.
    pub(crate) leaf: VNode,
}

/// A variable and the value that it is given.
#[derive(Clone, Copy, Drop)]
pub(crate) struct Condition {
    /// The variable, from 1.
    pub(crate) variable: u32,
    /// Its value.
    pub(crate) positive: bool,
    /// Its leaf of the vtree.
    pub(crate) leaf: VNode,
}
