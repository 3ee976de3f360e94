// The SDD text of plain diagrams.

ghost use Rattle.std.specs.Prelude.{◌≡◌, ◌≤◌, List, ◌∷◌, [], ◌++◌, map, length, codes, OnOk, IfOk};
ghost use Rattle.std.specs.List.{flat_map};
ghost use Rattle.sd_model.specs.Text.{number_text, literal_text, line_text, index_of};
ghost use Rattle.sd_model.specs.Text.{spaced, element_words, node_words, root_lines};
ghost use Rattle.sd_model.specs.Text.{naming_lines, roots_text, sdd_text};
ghost use Rattle.sd_model.specs.Seen.{diagram_of, elements_of, diagrams_of};

use crate::diagrams::{Diagram, Element};
use crate::nodes::{find_index, nodes_of};
use itoa::Buffer;
use std::alloc::{AllocError, Global};
use std::slice;

/// The SDD text of a diagram, in the form of the SDD Package 2.0: the line `sdd N`, then a line for each of the N
/// distinct diagrams in it, numbered from 0 in the order in which they are first complete. Its own line is the last.
/// It walks a diagram once for each use and compares it with the distinct ones, so it is for small diagrams.
#[tactic(auto, unfolding(crate::specs::Text::sdd_text))]
pub fn text_of(alloc: Global, d: &Diagram) -> Result<Vec<u8>, AllocError>
    ensures { IfOk result (λ text. text.items ≡ sdd_text (diagram_of d.now)) }
{
    texts_of(alloc, slice::from_ref(d))
}

/// The SDD text of one or more diagrams, the roots, in one numbering: the distinct diagrams in all of them are numbered
/// as in `text_of`, root by root. Where there are two or more roots, the lines `c root I ID` follow, which tell the
/// number of the diagram of each root I, counted from 0.
pub fn texts_of(alloc: Global, roots: &[Diagram]) -> Result<Vec<u8>, AllocError>
    requires some { 1 ≤ length roots.now }
    ensures { IfOk result (λ text. text.items ≡ roots_text (map diagram_of roots.now)) }
{
    let nodes = nodes_of(alloc, roots)?;
    let mut text = Vec::from_slice(alloc, b"sdd")?;
    push_number(&mut text, nodes.len() as u64)?;
    push_feed(&mut text)?;
    push_nodes(&mut text, &nodes)?;
    push_naming(&mut text, &nodes, roots)?;
    Ok(text)
}

// Writes a number.
fn push_digits(text: &mut Vec<u8>, n: u64) -> Result<(), AllocError>
    ensures { OnOk result (text.new.items ≡ text.old.items ++ number_text n) }
{
    text.extend_from_slice(Buffer::new().format(n).as_bytes())?;
    Ok(())
}

// Writes a space and a number.
fn push_number(text: &mut Vec<u8>, n: u64) -> Result<(), AllocError>
    ensures { OnOk result (text.new.items ≡ text.old.items ++ 32 ∷ number_text n) }
{
    text.push(b' ')?;
    push_digits(text, n)
}

// Writes a space and a literal.
fn push_literal(text: &mut Vec<u8>, variable: u32, positive: bool) -> Result<(), AllocError>
    ensures { OnOk result (text.new.items ≡ text.old.items ++ 32 ∷ literal_text variable positive) }
{
    if positive {
        push_number(text, u64::from(variable))
    } else {
        text.push(b' ')?;
        text.push(b'-')?;
        push_digits(text, u64::from(variable))
    }
}

// Writes the numbers of the primes and subs.
fn push_elements(
    text: &mut Vec<u8>,
    nodes: &[&Diagram],
    elements: &[Element],
) -> Result<(), AllocError>
    ensures { OnOk result (text.new.items
        ≡ text.old.items
        ++ spaced (element_words (diagrams_of nodes.now) (elements_of elements.now))) }
{
    for element in elements {
        push_number(text, find_index(nodes, &element.prime) as u64)?;
        push_number(text, find_index(nodes, &element.sub) as u64)?;
    }
    Ok(())
}

// Writes the letter of a line and the number of its node.
fn push_start(text: &mut Vec<u8>, letter: u8, number: u64) -> Result<(), AllocError>
    ensures { OnOk result (text.new.items ≡ text.old.items ++ letter ∷ 32 ∷ number_text number) }
{
    text.push(letter)?;
    push_number(text, number)
}

// Ends a line.
fn push_feed(text: &mut Vec<u8>) -> Result<(), AllocError>
    ensures { OnOk result (text.new.items ≡ text.old.items ++ 10 ∷ []) }
{
    text.push(b'\n')?;
    Ok(())
}

// Writes the line of a node.
fn push_node(text: &mut Vec<u8>, nodes: &[&Diagram], node: &Diagram) -> Result<(), AllocError>
    ensures { OnOk result (text.new.items
        ≡ text.old.items ++ line_text (node_words (diagrams_of nodes.now) (diagram_of node.now))) }
{
    let number = find_index(nodes, node) as u64;
    match node {
        Diagram::Bottom => {
            push_start(text, b'F', number)?;
            push_feed(text)
        }
        Diagram::Top => {
            push_start(text, b'T', number)?;
            push_feed(text)
        }
        Diagram::Literal {
            position,
            variable,
            positive,
        } => {
            push_start(text, b'L', number)?;
            push_number(text, u64::from(*position))?;
            push_literal(text, *variable, *positive)?;
            push_feed(text)
        }
        Diagram::Decomposition { position, elements } => {
            push_start(text, b'D', number)?;
            push_number(text, u64::from(*position))?;
            push_number(text, elements.len() as u64)?;
            push_elements(text, nodes, elements)?;
            push_feed(text)
        }
    }
}

// Writes the lines of the nodes.
fn push_nodes(text: &mut Vec<u8>, nodes: &[&Diagram]) -> Result<(), AllocError>
    ensures { OnOk result (text.new.items ≡ text.old.items
        ++ flat_map line_text (map (node_words (diagrams_of nodes.now)) (diagrams_of nodes.now))) }
{
    for node in nodes {
        push_node(text, nodes, node)?;
    }
    Ok(())
}

// Writes the lines that name the roots, where there are two or more.
fn push_naming(text: &mut Vec<u8>, nodes: &[&Diagram], roots: &[Diagram]) -> Result<(), AllocError>
    ensures { OnOk result (text.new.items ≡ text.old.items
        ++ flat_map line_text (naming_lines (diagrams_of nodes.now) (map diagram_of roots.now))) }
{
    if roots.len() < 2 {
        return Ok(());
    }
    push_roots(text, nodes, roots)
}

// Writes the lines of the roots.
fn push_roots(text: &mut Vec<u8>, nodes: &[&Diagram], roots: &[Diagram]) -> Result<(), AllocError>
    ensures { OnOk result (text.new.items ≡ text.old.items
        ++ flat_map line_text (root_lines (diagrams_of nodes.now) 0 (map diagram_of roots.now))) }
{
    for (number, root) in roots.iter().enumerate() {
        push_root(text, number as u64, find_index(nodes, root) as u64)?;
    }
    Ok(())
}

// Writes the line of the root of a number, whose diagram has a number.
fn push_root(text: &mut Vec<u8>, number: u64, id: u64) -> Result<(), AllocError>
    ensures { OnOk result (text.new.items ≡ text.old.items
        ++ line_text (codes "c" ∷ codes "root" ∷ number_text number ∷ number_text id ∷ [])) }
{
    text.extend_from_slice(b"c root")?;
    push_number(text, number)?;
    push_number(text, id)?;
    push_feed(text)
}
