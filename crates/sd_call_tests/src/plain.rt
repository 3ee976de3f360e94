// Plain diagrams and trees, whose texts, sizes and moves the program does without.
use crate::expect::are_so;
use sd_model::{
    Diagram, Element, Move, MovedError, Side, Tree, compare, moved, size_of, text_of, texts_of,
};
use std::alloc::{AllocError, Global};
use std::cmp::Ordering;
use std::test::Fail;

// The literal of a variable at its leaf in a balanced vtree over four.
fn literal(variable: u8, positive: bool) -> Diagram {
    Diagram::Literal {
        position: 2 * (u32::from(variable).max(1) - 1),
        variable: u32::from(variable),
        positive,
    }
}

// A decomposition of two elements, each a prime and a sub.
fn two(
    alloc: Global,
    position: u32,
    (prime, sub): (Diagram, Diagram),
    (second_prime, second_sub): (Diagram, Diagram),
) -> Result<Diagram, AllocError> {
    let mut elements = Vec::new(alloc);
    elements.push(Element { prime, sub })?;
    elements.push(Element {
        prime: second_prime,
        sub: second_sub,
    })?;
    Ok(Diagram::Decomposition { position, elements })
}

// A decomposition at a position by the cases of a variable: what is so where it fails, and where it holds.
fn cases(
    alloc: Global,
    position: u32,
    variable: u8,
    no: Diagram,
    yes: Diagram,
) -> Result<Diagram, AllocError> {
    let first = (literal(variable, false), no);
    let second = (literal(variable, true), yes);
    two(alloc, position, first, second)
}

// 1 and 2, for the vtree (1 2), and for ((1 2) (3 4)) too.
fn both(alloc: Global) -> Result<Diagram, AllocError> {
    cases(alloc, 1, 1, Diagram::Bottom, literal(2, true))
}

// 1 or 2, for the vtree (1 2).
fn one_or_two(alloc: Global) -> Result<Diagram, AllocError> {
    cases(alloc, 1, 1, literal(2, true), Diagram::Top)
}

// (1 and 2) or (3 and 4), for the vtree ((1 2) (3 4)).
fn two_terms(alloc: Global) -> Result<Diagram, AllocError> {
    let not_both = cases(alloc, 1, 1, Diagram::Top, literal(2, false))?;
    let others = cases(alloc, 5, 3, Diagram::Bottom, literal(4, true))?;
    let first = (both(alloc)?, Diagram::Top);
    two(alloc, 3, first, (not_both, others))
}

const DISJUNCTION: &str = "sdd 5\nL 0 0 -1\nL 1 2 2\nL 2 0 1\nT 3\nD 4 1 2 0 1 2 3\n";

const TWO_TERMS: &str =
    "sdd 13\nL 0 0 -1\nF 1\nL 2 0 1\nL 3 2 2\nD 4 1 2 0 1 2 3\nT 5\nL 6 2 -2\nD 7 1 2 0 5 2 6\n\
    L 8 4 -3\nL 9 4 3\nL 10 6 4\nD 11 5 2 8 1 9 10\nD 12 3 2 4 5 7 11\n";

const BOTH: &str =
    "sdd 7\nL 0 0 -1\nF 1\nL 2 0 1\nL 3 2 2\nD 4 1 2 0 1 2 3\nT 5\nD 6 1 2 0 3 2 5\nc root 0 4\n\
    c root 1 6\n";

// Whether a diagram has this text and this size.
fn is_so(alloc: Global, d: &Diagram, text: &str, size: u64) -> Result<bool, AllocError> {
    Ok(text_of(alloc, d)?.as_slice() == text.as_bytes() && size_of(alloc, d)? == size)
}

// Whether two diagrams have their texts and sizes, and whether both have one text.
fn are_written(alloc: Global) -> Result<[bool; 3], AllocError> {
    let disjunction = is_so(alloc, &one_or_two(alloc)?, DISJUNCTION, 2)?;
    let terms = is_so(alloc, &two_terms(alloc)?, TWO_TERMS, 8)?;
    Ok([disjunction, terms, are_both(alloc)?])
}

// Whether two diagrams that share their literals have the text of both.
fn are_both(alloc: Global) -> Result<bool, AllocError> {
    let text = texts_of(alloc, &[both(alloc)?, one_or_two(alloc)?])?;
    Ok(text.as_slice() == BOTH.as_bytes())
}

/// Diagrams have the texts and sizes that were found by hand.
#[test]
fn texts_and_sizes(rt: HostRuntime) -> Result<(), Fail> {
    are_so(&are_written(rt.alloc())?)
}

// Whether the negative literal of a variable comes before the other one, and that one behind true.
fn are_in_order() -> [bool; 2] {
    let (no, yes) = (literal(1, false), literal(1, true));
    let first = compare(&no, &yes) == Ordering::Less;
    [first, compare(&yes, &Diagram::Top) == Ordering::Greater]
}

/// The negative literal comes first, and true before a literal.
#[test]
fn order_of_literals() -> Result<(), Fail> {
    are_so(&are_in_order())
}

fn node(alloc: Global, left: Tree, right: Tree) -> Result<Tree, AllocError> {
    Ok(Tree::Node(Box::new(alloc, left)?, Box::new(alloc, right)?))
}

// ((a b) 3)
fn left_tree(alloc: Global, a: u32, b: u32) -> Result<Tree, AllocError> {
    node(
        alloc,
        node(alloc, Tree::Leaf(a), Tree::Leaf(b))?,
        Tree::Leaf(3),
    )
}

// (1 (2 3))
fn right_tree(alloc: Global) -> Result<Tree, AllocError> {
    node(
        alloc,
        Tree::Leaf(1),
        node(alloc, Tree::Leaf(2), Tree::Leaf(3))?,
    )
}

// Whether a tree is moved to another one.
fn is_moved(alloc: Global, tree: Tree, place: &[Side], kind: Move, to: Tree) -> bool {
    match moved(alloc, &tree, place, kind) {
        Ok(found) => found == to,
        Err(_) => false,
    }
}

// Whether `((1 2) 3)` is rotated to the right.
fn is_rotated(alloc: Global) -> Result<bool, AllocError> {
    let (from, to) = (left_tree(alloc, 1, 2)?, right_tree(alloc)?);
    Ok(is_moved(alloc, from, &[], Move::RotateRight, to))
}

// Whether it is rotated back.
fn is_rotated_back(alloc: Global) -> Result<bool, AllocError> {
    let (from, to) = (right_tree(alloc)?, left_tree(alloc, 1, 2)?);
    Ok(is_moved(alloc, from, &[], Move::RotateLeft, to))
}

// Whether its left child is swapped.
fn is_swapped(alloc: Global) -> Result<bool, AllocError> {
    let (from, to) = (left_tree(alloc, 1, 2)?, left_tree(alloc, 2, 1)?);
    Ok(is_moved(alloc, from, &[Side::Left], Move::Swap, to))
}

// Whether the right child of `((1 2) 3)` is not movable.
fn is_leaf_kept(alloc: Global) -> Result<bool, AllocError> {
    let tree = left_tree(alloc, 1, 2)?;
    let leaf = moved(alloc, &tree, &[Side::Right], Move::Swap);
    Ok(matches!(leaf, Err(MovedError::NotMovable)))
}

// The same of all moves.
fn are_moved(alloc: Global) -> Result<[bool; 4], AllocError> {
    let (right, left) = (is_rotated(alloc)?, is_rotated_back(alloc)?);
    Ok([right, left, is_swapped(alloc)?, is_leaf_kept(alloc)?])
}

/// `((1 2) 3)` is rotated to the right and back, its left child is swapped, and its right child is a leaf.
#[test]
fn moves_of_three_leaves(rt: HostRuntime) -> Result<(), Fail> {
    are_so(&are_moved(rt.alloc())?)
}
