// The vectors of a new vtree, whose nodes have their positions as numbers.

ghost use Rattle.std.specs.Prelude.{◌≡◌, ℕ, ◌+◌, ◌-◌, ◌*◌, ◌^◌, ◌<◌, ◌≤◌, ◌++◌, length, IfOk, slice_get, slice_index};
ghost use Rattle.std.specs.List.{range_with_len};
ghost use Rattle.sd_model.specs.Seen.{tree_of};
ghost use Rattle.sd_model.specs.Tree.{leaves, position};
ghost use Rattle.sd_vtree.specs.Built.{numbered_from, shapes, tree_sizes};
ghost use Rattle.sd_vtree.specs.declared.shape.Shape.TheVariants.{Leaf};

use crate::shape::{Shape, VNode};
use sd_model::Tree;
use std::alloc::{AllocError, Global};

// Adds the nodes of a tree in order, each at its position, and gives the root.
pub(crate) fn add_nodes(tree: &Tree, nodes: &mut Vec<Shape>) -> Result<VNode, AllocError>
    requires { length nodes.old.items + 2 * leaves (tree_of tree.now) < 2 ^ 32 }
    ensures root { IfOk result (λ n. n ≡ position (tree_of tree.now) (length nodes.old.items)) }
    ensures nodes { IfOk result (λ _. nodes.new.items ≡
        nodes.old.items ++ shapes (numbered_from (length nodes.old.items) (tree_of tree.now))) }
{
    match tree {
        Tree::Leaf(variable) => {
            let number = VNode(nodes.len() as u32);
            nodes.push(Shape::Leaf(*variable))?;
            Ok(number)
        }
        Tree::Node(left, right) => {
            let left = add_nodes(left, nodes)?;
            let number = VNode(nodes.len() as u32);
            // The place is kept until the right child is known.
            nodes.push(Shape::Inner(left, left))?;
            let right = add_nodes(right, nodes)?;
            nodes[number.index()] = Shape::Inner(left, right);
            Ok(number)
        }
    }
}

// Adds for each node of a tree, in order, how many nodes stand at or below it, and gives that number for the root.
pub(crate) fn add_sizes(tree: &Tree, sizes: &mut Vec<u32>) -> Result<u32, AllocError>
    requires { 2 * leaves (tree_of tree.now) < 2 ^ 32 }
    ensures count { IfOk result (λ n. n ≡ length (tree_sizes (tree_of tree.now))) }
    ensures sizes { IfOk result (λ _. sizes.new.items ≡
        sizes.old.items ++ tree_sizes (tree_of tree.now)) }
{
    match tree {
        Tree::Leaf(_) => {
            sizes.push(1)?;
            Ok(1)
        }
        Tree::Node(left, right) => {
            let before = add_sizes(left, sizes)?;
            let place = sizes.len();
            // The place is kept until the nodes below the right child are counted.
            sizes.push(before)?;
            let after = add_sizes(right, sizes)?;
            let count = before + 1 + after;
            sizes[place] = count;
            Ok(count)
        }
    }
}

// The first numbers, each at its own index.
pub(crate) fn first_numbers(alloc: Global, count: u32) -> Result<Vec<u32>, AllocError>
    ensures { IfOk result (λ v. v.items ≡ range_with_len 0 count) }
{
    // The check proves a mapped range by itself, and a bare one not.
    (0..count).map(|number| number).collect(alloc)
}

// The first nodes, each at the index that is its number.
pub(crate) fn first_nodes(alloc: Global, count: u32) -> Result<Vec<VNode>, AllocError>
    ensures { IfOk result (λ v. v.items ≡ range_with_len 0 count) }
{
    (0..count).map(|number| VNode(number)).collect(alloc)
}

// The leaves by their variables.
pub(crate) fn leaves_of(
    alloc: Global,
    nodes: &[Shape],
    variables: u32,
) -> Result<Vec<VNode>, AllocError>
    requires positive { (k x : ℕ) → slice_get nodes.now k ≡ Some (Leaf x) → 1 ≤ x }
    requires within { (k x : ℕ) → slice_get nodes.now k ≡ Some (Leaf x) → x ≤ variables }
    requires within_limit { length nodes.now < 2 ^ 32 }
    ensures count { IfOk result (λ v. length v.items ≡ variables) }
    ensures leaves { IfOk result (λ v. (k x : ℕ) → slice_get nodes.now k ≡ Some (Leaf x) →
        slice_get nodes.now (slice_index v.items (x - 1)) ≡ Some (Leaf x)) }
{
    let mut leaves = vec![in alloc; VNode(0); variables as usize]?;
    for (number, shape) in nodes.iter().enumerate() {
        if let Shape::Leaf(variable) = shape {
            leaves[(*variable - 1) as usize] = VNode(number as u32);
        }
    }
    Ok(leaves)
}
