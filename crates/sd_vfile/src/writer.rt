//! The text of a vtree.

ghost use Rattle.std.specs.Prelude.{◌≡◌, ◌+◌, ◌-◌, ◌*◌, ◌^◌, ◌<◌, ◌≤◌, ◌∷◌, [], ◌++◌, codes, Ok, IfOk, OnOk};
ghost use Rattle.std.specs.List.{flat_map};
ghost use Rattle.sd_model.specs.Seen.{tree_of};
ghost use Rattle.sd_model.specs.Text.{number_text, line_text, vtree_node_lines, vtree_text};
ghost use Rattle.sd_model.specs.Tree.{leaves, position};
ghost use Rattle.sd_vtree.specs.Numbered.{plain_tree};
ghost use Rattle.sd_vfile.specs.Reads.{vtree_file};

use itoa::Buffer;
use sd_base::Bytes;
use sd_model::Tree;
use sd_vtree::Vtree;
use std::alloc::{AllocError, Global};

/// The text of a vtree: the line `vtree N`, then a line for each of the N nodes, the left child's
/// first, then the right child's, then the node's own. The id of a node is its position. What is
/// written is read back as the same tree.
pub fn write_vtree(alloc: Global, vtree: &Vtree) -> Result<Bytes, AllocError>
    ensures text { IfOk result (λ bytes. bytes ≡ vtree_text (plain_tree vtree.now)) }
    ensures read_back { IfOk result (λ bytes.
        vtree_file (leaves (plain_tree vtree.now)) bytes ≡ Ok (plain_tree vtree.now)) }
{
    let tree = vtree.tree(alloc)?;
    let mut text = Vec::from_slice(alloc, b"vtree")?;
    push_number(&mut text, 2 * vtree.variables() - 1)?;
    push_feed(&mut text)?;
    let _root = push_nodes(&mut text, &tree, 0)?;
    Ok(Bytes::new(text))
}

/// The positions that a written tree took.
#[derive(Clone, Copy)]
struct Places {
    /// That of its root.
    root: u32,
    /// Where those of a right neighbour begin.
    next: u32,
}

/// Writes the lines of a tree whose positions begin at a base.
fn push_nodes(text: &mut Vec<u8>, tree: &Tree, base: u32) -> Result<Places, AllocError>
    requires { base + 2 * leaves (tree_of tree.now) < 2 ^ 32 }
    ensures text { OnOk result (text.new.items
        ≡ text.old.items ++ flat_map line_text (vtree_node_lines (tree_of tree.now) base)) }
    ensures root { IfOk result (λ places. places.root ≡ position (tree_of tree.now) base) }
    ensures next { IfOk result (λ places. places.next ≡ base + 2 * leaves (tree_of tree.now)) }
{
    match tree {
        Tree::Leaf(variable) => {
            push_leaf(text, base, *variable)?;
            Ok(Places {
                root: base,
                next: base + 2,
            })
        }
        Tree::Node(left, right) => {
            let left = push_nodes(text, left, base)?;
            let right = push_nodes(text, right, left.next)?;
            let root = left.next - 1;
            push_inner(text, root, left.root, right.root)?;
            Ok(Places {
                root,
                next: right.next,
            })
        }
    }
}

/// Writes the line of a leaf.
fn push_leaf(text: &mut Vec<u8>, position: u32, variable: u32) -> Result<(), AllocError>
    ensures { OnOk result (text.new.items ≡ text.old.items
        ++ line_text (codes "L" ∷ number_text position ∷ number_text variable ∷ [])) }
{
    text.push(b'L')?;
    push_number(text, position)?;
    push_number(text, variable)?;
    push_feed(text)
}

/// Writes the line of an internal node.
fn push_inner(text: &mut Vec<u8>, position: u32, left: u32, right: u32) -> Result<(), AllocError>
    ensures { OnOk result (text.new.items ≡ text.old.items
        ++ line_text (codes "I" ∷ number_text position ∷ number_text left ∷ number_text right ∷ [])) }
{
    text.push(b'I')?;
    push_number(text, position)?;
    push_number(text, left)?;
    push_number(text, right)?;
    push_feed(text)
}

/// Writes a space and a number.
fn push_number(text: &mut Vec<u8>, n: u32) -> Result<(), AllocError>
    ensures { OnOk result (text.new.items ≡ text.old.items ++ 32 ∷ number_text n) }
{
    text.push(b' ')?;
    text.extend_from_slice(Buffer::new().format(n).as_bytes())?;
    Ok(())
}

/// Ends a line.
fn push_feed(text: &mut Vec<u8>) -> Result<(), AllocError>
    ensures { OnOk result (text.new.items ≡ text.old.items ++ 10 ∷ []) }
{
    text.push(b'\n')?;
    Ok(())
}
