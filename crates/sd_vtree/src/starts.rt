// The start vtrees as plain trees.

ghost use Rattle.std.specs.Prelude.{◌≡◌, ◌+◌, ◌-◌, ◌/◌, ◌^◌, ◌<◌, ◌≤◌, IfOk};
ghost use Rattle.sd_model.specs.Seen.{tree_of};
ghost use Rattle.sd_model.specs.StartTrees.{tree_by};
ghost use Rattle.sd_model.specs.Tree.{Node};

use sd_model::Tree;
use std::alloc::{AllocError, Global};

// A node over two trees.
pub(crate) fn node_over(alloc: Global, left: Tree, right: Tree) -> Result<Tree, AllocError>
    ensures { IfOk result (λ t. tree_of t ≡ Node (tree_of left) (tree_of right)) }
{
    let left = Box::new(alloc, left)?;
    let right = Box::new(alloc, right)?;
    Ok(Tree::Node(left, right))
}

// The balanced tree over so many variables from the first one on.
pub(crate) fn balanced_over(alloc: Global, first: u32, count: u32) -> Result<Tree, AllocError>
    requires at_least_one { 1 ≤ count }
    requires fits { first + count < 2 ^ 32 }
    ensures { IfOk result (λ t. tree_of t ≡ tree_by (λ m. m / 2) count first count) }
{
    if count < 2 {
        return Ok(Tree::Leaf(first));
    }
    let half = count / 2;
    let left = balanced_over(alloc, first, half)?;
    let right = balanced_over(alloc, first + half, count - half)?;
    node_over(alloc, left, right)
}

// The right tree over so many variables from the first one on.
pub(crate) fn right_over(alloc: Global, first: u32, count: u32) -> Result<Tree, AllocError>
    requires at_least_one { 1 ≤ count }
    requires fits { first + count < 2 ^ 32 }
    ensures { IfOk result (λ t. tree_of t ≡ tree_by (λ m. 1) count first count) }
{
    if count < 2 {
        return Ok(Tree::Leaf(first));
    }
    let right = right_over(alloc, first + 1, count - 1)?;
    node_over(alloc, Tree::Leaf(first), right)
}

// The left tree over so many variables from 1 on.
pub(crate) fn left_over(alloc: Global, count: u32) -> Result<Tree, AllocError>
    requires { 1 ≤ count }
    ensures { IfOk result (λ t. tree_of t ≡ tree_by (λ m. m - 1) count 1 count) }
{
    if count < 2 {
        return Ok(Tree::Leaf(1));
    }
    let left = left_over(alloc, count - 1)?;
    node_over(alloc, left, Tree::Leaf(count))
}
