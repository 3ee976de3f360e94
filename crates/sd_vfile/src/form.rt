//! The two forms of a node line.

ghost use Rattle.std.specs.Prelude.{◌≡◌};
ghost use Rattle.sd_base.specs.Views.{words_left, line_view};
ghost use Rattle.sd_vfile.specs.Reads.{form_of as form_of_words};
ghost use Rattle.sd_vfile.specs.Steps as texts;
ghost use Rattle.sd_vfile.specs.Steps.{id_of, has_child, is_leaf_line};

use sd_base::{Line, Words, natural};

/// A node line.
#[derive(Clone, Copy, Debug)]
pub(crate) enum Form {
    /// `L id variable`.
    LeafLine { id: u64, variable: u64 },
    /// `I id left right`, where the children are ids.
    InnerLine { id: u64, left: u64, right: u64 },
}

impl Form {
    /// The id of the node.
    pub(crate) fn id(&self) -> u64
        ensures { result ≡ id_of self.now }
    {
        match self {
            Form::LeafLine { id, .. } | Form::InnerLine { id, .. } => *id,
        }
    }

    /// Whether an id is that of a child.
    pub(crate) fn has_child(&self, id: u64) -> bool
        ensures { result ≡ has_child id self.now }
    {
        match self {
            Form::LeafLine { .. } => false,
            Form::InnerLine { left, right, .. } => *left == id || *right == id,
        }
    }

    /// Whether it is the leaf of a variable.
    pub(crate) fn is_leaf_of(&self, variable: u64) -> bool
        ensures { result ≡ is_leaf_line variable self.now }
    {
        match self {
            Form::LeafLine { variable: own, .. } => *own == variable,
            Form::InnerLine { .. } => false,
        }
    }
}

/// The form of a line, where it has one.
pub(crate) fn form_of(line: &Line<'_>) -> Option<Form>
    ensures { result ≡ form_of_words (line_view line.now).words }
{
    let mut words = line.words();
    match words.next() {
        Some(b"L") => leaf_form(words),
        Some(b"I") => inner_form(words),
        _ => None,
    }
}

/// The leaf of the words after the letter.
fn leaf_form(mut words: Words<'_>) -> Option<Form>
    ensures { result ≡ texts.leaf_form (words_left words.entry) }
{
    let id = natural(words.next()?)?;
    let variable = natural(words.next()?)?;
    if words.next().is_some() {
        return None;
    }
    Some(Form::LeafLine { id, variable })
}

/// The internal node of the words after the letter.
fn inner_form(mut words: Words<'_>) -> Option<Form>
    ensures { result ≡ texts.inner_form (words_left words.entry) }
{
    let id = natural(words.next()?)?;
    let left = natural(words.next()?)?;
    let right = natural(words.next()?)?;
    if words.next().is_some() {
        return None;
    }
    Some(Form::InnerLine { id, left, right })
}
