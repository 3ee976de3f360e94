// The moves of plain vtrees.

ghost use Rattle.std.specs.Prelude.{◌≡◌, ◌↔◌, IfOk};
ghost use Rattle.std.specs.declared.option.Option.TheVariants.{None, Some};
ghost use Rattle.sd_model.specs.Moves.{moved, moved_root};
ghost use Rattle.sd_model.specs.Seen.{tree_of};
ghost use Rattle.sd_model.specs.declared.trees.Move.TheVariants.{RotateLeft, RotateRight};
ghost use Rattle.sd_model.specs.Tree.{Node};

use crate::trees::{Move, Side, Tree};
use std::alloc::{AllocError, Global};
use thiserror::Error;

/// Why a vtree was not moved.
#[derive(Debug, Drop, Error)]
pub enum MovedError {
    /// The path leaves the tree, or the tree has not the form of the move there.
    #[error("not movable")]
    NotMovable,
    /// Memory ran out.
    #[error("out of memory")]
    OutOfMemory,
}

impl From<AllocError> for MovedError {
    ghost use Rattle.std.specs.Prelude.{◌≡◌};
    ghost use Rattle.sd_model.specs.declared.moves.MovedError.{MovedError};

    ghost from_gives = { λ _ error. error ≡ MovedError.OutOfMemory };

    fn from(_error: AllocError) -> MovedError {
        MovedError::OutOfMemory
    }
}

/// The tree with a move made at the end of a path, which begins at the root. It is not movable exactly where the path
/// leaves the tree or the tree has not the form of the move there; that is found before any memory is taken.
pub fn moved(alloc: Global, tree: &Tree, place: &[Side], kind: Move) -> Result<Tree, MovedError>
    ensures ok { IfOk result (λ t. moved kind (tree_of tree.now) place.now ≡ Some (tree_of t)) }
    ensures not_movable { (result ≡ Err MovedError.NotMovable)
        ↔ (moved kind (tree_of tree.now) place.now ≡ None) }
{
    match place {
        [] => moved_root(alloc, tree, kind),
        [side, rest @ ..] => match tree {
            Tree::Leaf(_) => Err(MovedError::NotMovable),
            Tree::Node(left, right) => match side {
                Side::Left => {
                    let left = moved(alloc, left, rest, kind)?;
                    let right = copied(alloc, right)?;
                    Ok(node(alloc, left, right)?)
                }
                Side::Right => {
                    let right = moved(alloc, right, rest, kind)?;
                    let left = copied(alloc, left)?;
                    Ok(node(alloc, left, right)?)
                }
            },
        },
    }
}

// The tree with a move made at its root.
fn moved_root(alloc: Global, tree: &Tree, kind: Move) -> Result<Tree, MovedError>
    ensures ok { IfOk result (λ t. moved_root kind (tree_of tree.now) ≡ Some (tree_of t)) }
    ensures not_movable { (result ≡ Err MovedError.NotMovable)
        ↔ (moved_root kind (tree_of tree.now) ≡ None) }
{
    match tree {
        Tree::Leaf(_) => Err(MovedError::NotMovable),
        Tree::Node(left, right) => match kind {
            Move::RotateRight => rotated_right(alloc, left, right),
            Move::RotateLeft => rotated_left(alloc, left, right),
            Move::Swap => {
                let a = copied(alloc, left)?;
                let b = copied(alloc, right)?;
                Ok(node(alloc, b, a)?)
            }
        },
    }
}

// A right rotation of the node over two trees: the left one's children are parted.
fn rotated_right(alloc: Global, left: &Tree, right: &Tree) -> Result<Tree, MovedError>
    ensures ok { IfOk result
        (λ t. moved_root RotateRight (Node (tree_of left.now) (tree_of right.now))
        ≡ Some (tree_of t)) }
    ensures not_movable { (result ≡ Err MovedError.NotMovable)
        ↔ (moved_root RotateRight (Node (tree_of left.now) (tree_of right.now)) ≡ None) }
{
    match left {
        Tree::Leaf(_) => Err(MovedError::NotMovable),
        Tree::Node(a, b) => {
            let a = copied(alloc, a)?;
            let b = copied(alloc, b)?;
            let c = copied(alloc, right)?;
            let lower = node(alloc, b, c)?;
            Ok(node(alloc, a, lower)?)
        }
    }
}

// A left rotation of the node over two trees: the right one's children are parted.
fn rotated_left(alloc: Global, left: &Tree, right: &Tree) -> Result<Tree, MovedError>
    ensures ok { IfOk result
        (λ t. moved_root RotateLeft (Node (tree_of left.now) (tree_of right.now))
        ≡ Some (tree_of t)) }
    ensures not_movable { (result ≡ Err MovedError.NotMovable)
        ↔ (moved_root RotateLeft (Node (tree_of left.now) (tree_of right.now)) ≡ None) }
{
    match right {
        Tree::Leaf(_) => Err(MovedError::NotMovable),
        Tree::Node(b, c) => {
            let a = copied(alloc, left)?;
            let b = copied(alloc, b)?;
            let c = copied(alloc, c)?;
            let lower = node(alloc, a, b)?;
            Ok(node(alloc, lower, c)?)
        }
    }
}

// A node over two trees.
fn node(alloc: Global, left: Tree, right: Tree) -> Result<Tree, AllocError>
    ensures { IfOk result (λ t. tree_of t ≡ Node (tree_of left) (tree_of right)) }
{
    let left = Box::new(alloc, left)?;
    let right = Box::new(alloc, right)?;
    Ok(Tree::Node(left, right))
}

// A copy of a tree.
fn copied(alloc: Global, tree: &Tree) -> Result<Tree, AllocError>
    ensures { IfOk result (λ t. tree_of t ≡ tree_of tree.now) }
{
    match tree {
        Tree::Leaf(x) => Ok(Tree::Leaf(*x)),
        Tree::Node(left, right) => {
            let left = copied(alloc, left)?;
            let right = copied(alloc, right)?;
            node(alloc, left, right)
        }
    }
}
