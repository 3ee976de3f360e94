//! The inner nodes of a vtree by their positions, so that two comparisons tell whether a node stands below another.

ghost use Rattle.std.specs.Prelude.{◌≡◌, ◌+◌, ◌*◌, ◌^◌, ◌<◌, ◌++◌, length, IfOk, OnOk};
ghost use Rattle.sd_model.specs.Seen.{tree_of};
ghost use Rattle.sd_model.specs.Tree.{leaves};
ghost use Rattle.sd_vtree.specs.Numbered.{plain_tree};
ghost use Rattle.sd_check.specs.Forks.{AreForks, forks_from};

use sd_model::Tree;
use sd_vtree::Vtree;
use std::alloc::{AllocError, Global};

/// An inner node of a vtree: the first position below it, its own, and the one behind the last.
#[derive(Clone, Copy, Debug)]
pub(crate) struct Fork {
    pub(crate) first: u32,
    pub(crate) middle: u32,
    pub(crate) end: u32,
}

/// The inner nodes of a vtree, by position, and None for leaves.
pub(crate) fn forks_of(alloc: Global, vtree: &Vtree) -> Result<Vec<Option<Fork>>, AllocError>
    ensures { IfOk result (λ v. AreForks (plain_tree vtree.now) v.items) }
{
    let _ = vtree.variables();
    let tree = vtree.tree(alloc)?;
    let mut forks = Vec::new(alloc);
    push_forks(&tree, &mut forks)?;
    Ok(forks)
}

// Adds the nodes of a tree in order, each at its position.
fn push_forks(tree: &Tree, forks: &mut Vec<Option<Fork>>) -> Result<(), AllocError>
    requires { length forks.old.items + 2 * leaves (tree_of tree.now) < 2 ^ 32 }
    ensures { OnOk result (forks.new.items ≡ forks.old.items
        ++ forks_from (tree_of tree.now) (length forks.old.items)) }
{
    match tree {
        Tree::Leaf(_) => {
            forks.push(None)?;
            Ok(())
        }
        Tree::Node(left, right) => {
            let first = forks.len() as u32;
            push_forks(left, forks)?;
            let middle = forks.len() as u32;
            // The place is kept until the right child is known.
            forks.push(None)?;
            push_forks(right, forks)?;
            let end = forks.len() as u32;
            forks[middle as usize] = Some(Fork { first, middle, end });
            Ok(())
        }
    }
}
