//! The literals of one line.

ghost use Rattle.std.specs.Prelude.{◌≡◌, ◌≤◌, ◌+◌, ◌*◌, option_map, IfOk};
ghost use Rattle.sd_base.specs.Views.{line_view, words_left};
ghost use Rattle.sd_aiger.specs.Reads as texts;
ghost use Rattle.sd_aiger.specs.Reads.{Gives};
ghost use Rattle.sd_aiger.specs.Steps.{triple_view};

use crate::fault::AigerFault;
use sd_base::{Line, Words, natural};

/// The literal of a line of one natural.
pub(crate) fn literal_of(line: &Line<'_>, variables: u32) -> Result<u32, AigerFault>
    requires within_limit { variables ≤ 2000000 }
    ensures value { Gives (λ literal. literal) result
        (texts.literal_of variables (line_view line.now)) }
    ensures range { IfOk result (λ literal. literal ≤ 2 * variables + 1) }
{
    let number = line.number;
    let literal = number_of(line.words()).ok_or(AigerFault::BadLine { line: number })?;
    if is_past_last(variables, literal) {
        return Err(AigerFault::LiteralRange { line: number });
    }
    Ok(literal as u32)
}

/// The literals of a line of three naturals: what it defines, and its right sides.
pub(crate) fn literals_of(line: &Line<'_>, variables: u32) -> Result<(u32, u32, u32), AigerFault>
    requires within_limit { variables ≤ 2000000 }
    ensures value { Gives triple_view result (texts.gate_of variables (line_view line.now)) }
    ensures range { IfOk result (λ literals. literals.0 ≤ 2 * variables + 1) }
{
    let number = line.number;
    let (defined, first, second) = numbers_of(line.words()).ok_or(AigerFault::BadLine {
        line: number,
    })?;
    if is_past_last(variables, defined)
        || is_past_last(variables, first)
        || is_past_last(variables, second)
    {
        return Err(AigerFault::LiteralRange { line: number });
    }
    Ok((defined as u32, first as u32, second as u32))
}

/// The number of the words, where they are one natural.
fn number_of(mut words: Words<'_>) -> Option<u64>
    ensures { result ≡ texts.literal_in (words_left words.entry) }
{
    let number = natural(words.next()?)?;
    if words.next().is_some() {
        return None;
    }
    Some(number)
}

/// The numbers of the words, where they are three naturals.
fn numbers_of(mut words: Words<'_>) -> Option<(u64, u64, u64)>
    ensures { option_map triple_view result ≡ texts.and_in (words_left words.entry) }
{
    let defined = natural(words.next()?)?;
    let first = natural(words.next()?)?;
    let second = natural(words.next()?)?;
    if words.next().is_some() {
        return None;
    }
    Some((defined, first, second))
}

/// Whether a number passes the greatest literal.
fn is_past_last(variables: u32, literal: u64) -> bool
    requires { variables ≤ 2000000 }
    ensures { result ≡ texts.past_last variables literal }
{
    literal > 2 * u64::from(variables) + 1
}
