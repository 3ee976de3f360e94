//! The four forms of a node line.

ghost use Rattle.std.specs.Prelude.{◌≡◌, ◌≤◌, ◌*◌, ◌==◌, ◌&&◌, nat_le, length};
ghost use Rattle.std.specs.Prelude.{IfOk, IfSome, option_map, option_and_then};
ghost use Rattle.sd_base.specs.Numbers.{natural_value};
ghost use Rattle.sd_base.specs.Views.{words_left, line_view};
ghost use Rattle.sd_file.specs.Reads as texts;
ghost use Rattle.sd_file.specs.Reads.{all_values};
ghost use Rattle.sd_file.specs.Steps.{form_view, children_count};

use sd_base::{Line, Words, integer, natural};
use std::alloc::{AllocError, Global};

/// A node line; the children of a decomposition are ids, two for each pair.
#[derive(Debug, Drop)]
pub(crate) enum Form {
    /// `F id` or `T id`.
    ConstantLine {
        id: u64,
        value: bool,
    },
    /// `L id vtree literal`.
    LiteralLine {
        id: u64,
        vtree: u64,
        literal: i64,
    },
    /// `D id vtree k p1 s1 ..`.
    DecompositionLine {
        id: u64,
        vtree: u64,
        children: Vec<u64>,
    },
}

impl Form {
    /// The id of the node.
    pub(crate) fn id(&self) -> u64
        ensures { result ≡ (form_view self.now).id }
    {
        match self {
            Form::ConstantLine { id, .. }
            | Form::LiteralLine { id, .. }
            | Form::DecompositionLine { id, .. } => *id,
        }
    }
}

/// The form of a line, where it has one.
pub(crate) fn form_of(alloc: Global, line: &Line<'_>) -> Result<Option<Form>, AllocError>
    ensures form { IfOk result (λ form. option_map form_view form
        ≡ texts.form_of (line_view line.now).words) }
    ensures within_limit { IfOk result (λ form. IfSome form
        (λ f. children_count f ≤ length (line_view line.now).words)) }
{
    let mut words = line.words();
    match words.next() {
        Some(b"F") => Ok(constant_form(false, words)),
        Some(b"T") => Ok(constant_form(true, words)),
        Some(b"L") => Ok(literal_form(words)),
        Some(b"D") => decomposition_form(alloc, words),
        _ => Ok(None),
    }
}

/// The constant of the words after the letter.
fn constant_form(value: bool, mut words: Words<'_>) -> Option<Form>
    ensures form { option_map form_view result
        ≡ texts.constant_form value (words_left words.entry) }
    ensures none { IfSome result (λ f. children_count f ≡ 0) }
{
    let id = natural(words.next()?)?;
    if words.next().is_some() {
        return None;
    }
    Some(Form::ConstantLine { id, value })
}

/// The literal of the words after the letter.
fn literal_form(mut words: Words<'_>) -> Option<Form>
    ensures form { option_map form_view result ≡ texts.literal_form (words_left words.entry) }
    ensures none { IfSome result (λ f. children_count f ≡ 0) }
{
    let id = natural(words.next()?)?;
    let vtree = natural(words.next()?)?;
    let literal = integer(words.next()?)?;
    if words.next().is_some() {
        return None;
    }
    Some(Form::LiteralLine { id, vtree, literal })
}

/// The numbers that the words are, where each is one.
#[tactic(auto, using(crate::proofs::FormLaws::front_more))]
fn naturals(alloc: Global, words: Words<'_>) -> Result<Option<Vec<u64>>, AllocError>
    ensures values { IfOk result (λ numbers. option_map (λ v. v.items) numbers
        ≡ all_values natural_value (words_left words.entry)) }
    ensures within_limit { IfOk result (λ numbers. IfSome numbers
        (λ v. length v.items ≤ length (words_left words.entry))) }
{
    let mut numbers = Vec::new(alloc);
    for word in words {
        match natural(word) {
            None => return Ok(None),
            Some(number) => numbers.push(number)?,
        }
    }
    Ok(Some(numbers))
}

/// The decomposition of the words after the letter.
fn decomposition_form(alloc: Global, words: Words<'_>) -> Result<Option<Form>, AllocError>
    ensures form { IfOk result (λ form. option_map form_view form
        ≡ option_and_then texts.decomposition_form
        (all_values natural_value (words_left words.entry))) }
    ensures within_limit { IfOk result (λ form. IfSome form
        (λ f. children_count f ≤ length (words_left words.entry))) }
{
    let Some(numbers) = naturals(alloc, words)? else {
        return Ok(None);
    };
    match numbers.as_slice() {
        [id, vtree, count, children @ ..] if is_paired(*count, children.len()) => {
            let children = children.to_vec(alloc)?;
            Ok(Some(Form::DecompositionLine {
                id: *id,
                vtree: *vtree,
                children,
            }))
        }
        _ => Ok(None),
    }
}

/// Whether the children are that many pairs, at least one.
fn is_paired(count: u64, children: usize) -> bool
    ensures { result ≡ (nat_le 1 count && children == 2 * count) }
{
    count > 0 && children % 2 == 0 && (children / 2) as u64 == count
}
