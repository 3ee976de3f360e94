//! The lines of the nodes that are complete, and their numbers.

ghost use Rattle.std.specs.Prelude.{◌≡◌, ◌∷◌, [], ◌++◌, length, codes, cond, OnOk};
ghost use Rattle.std.specs.List.{AllByRecursion, flat_map};
ghost use Rattle.sd_model.specs.Text.{number_text, literal_text, line_text, spaced};
ghost use Rattle.sd_file.specs.Numbers.{CanGive, HaveNumbers, HasNextNumber, pair_words};
ghost use Rattle.sd_file.specs.Numbers.{HasNumber, root_words, naming_words};
ghost use Rattle.sd_file.specs.Lines.{HasNodeLine};

use crate::numbers::Numbers;
use itoa::Buffer;
use sd_manager::NodeId;
use std::alloc::{AllocError, Global};

/// What is known of the nodes that are complete.
#[derive(Drop)]
pub(crate) struct Listing {
    /// Their numbers.
    pub(crate) numbers: Numbers,
    /// Their lines, by ascending numbers.
    pub(crate) text: Vec<u8>,
}

impl Listing {
    /// No node is complete.
    pub(crate) fn new(alloc: Global) -> Listing
        ensures marks { result.numbers.marks.items ≡ [] }
        ensures count { result.numbers.count ≡ 0 }
        ensures text { result.text.items ≡ [] }
    {
        Listing {
            numbers: Numbers::new(alloc),
            text: Vec::new(alloc),
        }
    }

    /// The line of a constant.
    pub(crate) fn add_constant(&mut self, node: NodeId, value: bool) -> Result<(), AllocError>
        requires { CanGive self.old.numbers node }
        ensures { OnOk result (HasNodeLine self.old self.new node
            (cond value (codes "T") (codes "F") ∷ number_text self.old.numbers.count ∷ [])) }
    {
        self.start(if value { b'T' } else { b'F' }, node)?;
        push_feed(&mut self.text)
    }

    /// The line of a literal at a position.
    pub(crate) fn add_literal(&mut self, node: NodeId, leaf: Leaf) -> Result<(), AllocError>
        requires { CanGive self.old.numbers node }
        ensures { OnOk result (HasNodeLine self.old self.new node
            (codes "L" ∷ number_text self.old.numbers.count ∷ number_text leaf.position
            ∷ literal_text leaf.variable leaf.positive ∷ [])) }
    {
        self.start(b'L', node)?;
        push_number(&mut self.text, u64::from(leaf.position))?;
        push_literal(&mut self.text, leaf.variable, leaf.positive)?;
        push_feed(&mut self.text)
    }

    /// The line of a decomposition at a position, whose primes and subs are complete.
    pub(crate) fn add_decomposition(
        &mut self,
        node: NodeId,
        position: u32,
        elements: &[(NodeId, NodeId)],
    ) -> Result<(), AllocError>
        requires given { CanGive self.old.numbers node }
        requires complete { AllByRecursion (HaveNumbers self.old.numbers) elements.now }
        ensures { OnOk result (HasNodeLine self.old self.new node
            (codes "D" ∷ number_text self.old.numbers.count ∷ number_text position ∷ number_text (length elements.now)
            ∷ pair_words self.new.numbers elements.now)) }
    {
        self.start(b'D', node)?;
        push_number(&mut self.text, u64::from(position))?;
        push_number(&mut self.text, elements.len() as u64)?;
        push_pairs(&mut self.text, &self.numbers, elements)?;
        push_feed(&mut self.text)
    }

    // Gives a node its number, and writes the letter of its line and the number.
    fn start(&mut self, letter: u8, node: NodeId) -> Result<(), AllocError>
        requires { CanGive self.old.numbers node }
        ensures given { OnOk result (HasNextNumber self.old.numbers self.new.numbers node) }
        ensures text { OnOk result (self.new.text.items
            ≡ self.old.text.items ++ letter ∷ 32 ∷ number_text self.old.numbers.count) }
    {
        let number = self.numbers.give(node.0)?;
        self.text.push(letter)?;
        push_number(&mut self.text, u64::from(number))
    }
}

/// A literal at its leaf.
#[derive(Clone, Copy)]
pub(crate) struct Leaf {
    pub(crate) position: u32,
    pub(crate) variable: u32,
    pub(crate) positive: bool,
}

// Writes the numbers of primes and subs that are complete, each behind a space.
fn push_pairs(
    text: &mut Vec<u8>,
    numbers: &Numbers,
    pairs: &[(NodeId, NodeId)],
) -> Result<(), AllocError>
    requires { AllByRecursion (HaveNumbers numbers.now) pairs.now }
    ensures { OnOk result (text.new.items ≡ text.old.items
        ++ spaced (pair_words numbers.now pairs.now)) }
{
    for pair in pairs {
        push_number(text, u64::from(numbers.number(pair.0.0)))?;
        push_number(text, u64::from(numbers.number(pair.1.0)))?;
    }
    Ok(())
}

// Writes a space and a literal.
fn push_literal(text: &mut Vec<u8>, variable: u32, positive: bool) -> Result<(), AllocError>
    ensures { OnOk result (text.new.items ≡ text.old.items ++ 32 ∷ literal_text variable positive) }
{
    text.push(b' ')?;
    if !positive {
        text.push(b'-')?;
    }
    push_digits(text, u64::from(variable))
}

// Writes a space and a number.
pub(crate) fn push_number(text: &mut Vec<u8>, n: u64) -> Result<(), AllocError>
    ensures { OnOk result (text.new.items ≡ text.old.items ++ 32 ∷ number_text n) }
{
    text.push(b' ')?;
    push_digits(text, n)
}

// Writes a number.
fn push_digits(text: &mut Vec<u8>, n: u64) -> Result<(), AllocError>
    ensures { OnOk result (text.new.items ≡ text.old.items ++ number_text n) }
{
    text.extend_from_slice(Buffer::new().format(n).as_bytes())?;
    Ok(())
}

// Ends a line.
pub(crate) fn push_feed(text: &mut Vec<u8>) -> Result<(), AllocError>
    ensures { OnOk result (text.new.items ≡ text.old.items ++ 10 ∷ []) }
{
    text.push(b'\n')?;
    Ok(())
}

// Writes the lines that name the roots, where there are two or more.
pub(crate) fn push_naming(
    text: &mut Vec<u8>,
    numbers: &Numbers,
    nodes: &[NodeId],
) -> Result<(), AllocError>
    requires { AllByRecursion (HasNumber numbers.now) nodes.now }
    ensures { OnOk result (text.new.items
        ≡ text.old.items ++ flat_map line_text (naming_words numbers.now nodes.now)) }
{
    if nodes.len() < 2 {
        return Ok(());
    }
    push_roots(text, numbers, nodes)
}

// Writes the lines of the roots.
fn push_roots(text: &mut Vec<u8>, numbers: &Numbers, nodes: &[NodeId]) -> Result<(), AllocError>
    requires { AllByRecursion (HasNumber numbers.now) nodes.now }
    ensures { OnOk result (text.new.items
        ≡ text.old.items ++ flat_map line_text (root_words numbers.now 0 nodes.now)) }
{
    for (index, node) in nodes.iter().enumerate() {
        push_root(text, index as u64, numbers.number(node.0))?;
    }
    Ok(())
}

// Writes the line of the root with an index, whose node has a number.
fn push_root(text: &mut Vec<u8>, index: u64, number: u32) -> Result<(), AllocError>
    ensures { OnOk result (text.new.items ≡ text.old.items
        ++ line_text (codes "c" ∷ codes "root" ∷ number_text index ∷ number_text number ∷ [])) }
{
    text.extend_from_slice(b"c root")?;
    push_number(text, index)?;
    push_number(text, u64::from(number))?;
    push_feed(text)
}
