//! The starts, and what is asked of the work at each.

ghost use Rattle.std.specs.Prelude.{◌≡◌, ◌≤◌, IfOk};
ghost use Rattle.sd_model.specs.Tree.{leaves};
ghost use Rattle.sd_vtree.specs.Numbered.{IsNumbered, plain_tree};
ghost use Rattle.sd_starts.specs.Starts.{rank, tree_of_start};

use sd_vtree::Vtree;
use std::alloc::{AllocError, Global};

/// The shape of a start tree, in the order in which they are tried.
#[derive(Clone, Copy, Debug, PartialEq, Eq)]
pub enum Start {
    /// Each node has half of its variables on the left.
    Balanced,
    /// Each left child is a leaf.
    Right,
    /// Each right child is a leaf.
    Left,
}

impl Start {
    // Its place in the order, counted from 0.
    pub(crate) fn rank(self) -> u32
        ensures { result ≡ rank self }
    {
        match self {
            Start::Balanced => 0,
            Start::Right => 1,
            Start::Left => 2,
        }
    }
}

/// What is asked of the work at each start.
#[derive(Clone, Copy, Debug, PartialEq, Eq)]
pub struct Settings {
    /// The largest size of a prefix.
    pub limit: u32,
    /// How far a walk of the search may let the size grow, in hundredths.
    pub slack: u32,
    /// The most rounds of the search behind the compilation, where one is asked for.
    pub rounds: Option<u32>,
}

// The vtree of a start over the variables 1 to so many.
pub(crate) fn vtree_of(alloc: Global, start: Start, variables: u32) -> Result<Vtree, AllocError>
    requires at_least_one { 1 ≤ variables }
    requires within_limit { variables ≤ 1024 }
    ensures tree { IfOk result (λ t. plain_tree t ≡ tree_of_start start variables) }
    ensures numbered { IfOk result IsNumbered }
    ensures leaves { IfOk result (λ t. leaves (plain_tree t) ≡ variables) }
{
    match start {
        Start::Balanced => Vtree::balanced(alloc, variables),
        Start::Right => Vtree::right(alloc, variables),
        Start::Left => Vtree::left(alloc, variables),
    }
}
