//! The header of a text in the format of DIMACS.

ghost use Rattle.std.specs.Prelude.{◌≡◌, IfOk, option_map};
ghost use Rattle.sd_base.specs.Views.{line_view, words_left};
ghost use Rattle.sd_formula.specs.Dimacs as texts;
ghost use Rattle.sd_formula.specs.Dimacs.{Gives};
ghost use Rattle.sd_formula.specs.Steps.{header_view, pair_view, InRange};

use crate::error::FormulaError;
use crate::formula::Kind;
use sd_base::{Line, Words, natural};

const MAX_VARIABLES: u64 = 1024;

const MAX_GROUPS: u64 = 1_000_000;

/// What a header states.
#[derive(Clone, Copy, Debug)]
pub(crate) struct Header {
    /// 1 to 1,024.
    pub(crate) variables: u32,
    /// At most 1,000,000.
    pub(crate) groups: u64,
}

/// The header of a text of this kind.
pub(crate) fn header_of(kind: Kind, line: &Line<'_>) -> Result<Header, FormulaError>
    ensures value { Gives header_view result (texts.stated_of kind (line_view line.now)) }
    ensures range { IfOk result (λ header. InRange (header_view header)) }
{
    let mut words = line.words();
    if words.next() != Some(b"p") {
        return Err(FormulaError::NoHeader);
    }
    let (variables, groups) = numbers_of(kind, words).ok_or(FormulaError::BadHeader {
        line: line.number,
    })?;
    in_range(variables, groups)
}

/// The two numbers after the name of the kind.
fn numbers_of(kind: Kind, mut words: Words<'_>) -> Option<(u64, u64)>
    ensures { option_map pair_view result ≡ texts.stated_in kind (words_left words.entry) }
{
    let name = words.next()?;
    let variables = natural(words.next()?)?;
    let groups = natural(words.next()?)?;
    if name != kind.name() || words.next().is_some() {
        return None;
    }
    Some((variables, groups))
}

/// The header of two numbers.
fn in_range(variables: u64, groups: u64) -> Result<Header, FormulaError>
    ensures value { Gives header_view result
        (texts.counts_in_range (record { variables = variables; groups = groups })) }
    ensures range { IfOk result (λ header. InRange (header_view header)) }
{
    if variables < 1 || variables > MAX_VARIABLES {
        return Err(FormulaError::VariablesRange { found: variables });
    }
    if groups > MAX_GROUPS {
        return Err(FormulaError::TooManyGroups { stated: groups });
    }
    Ok(Header {
        variables: variables as u32,
        groups,
    })
}
