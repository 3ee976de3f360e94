//! The body of a text in the format of DIMACS.

ghost use Rattle.std.specs.Prelude.{◌≡◌, ◌≤◌, ◌<◌, ◌+◌, ◌^◌, length, option_map};
ghost use Rattle.sd_base.specs.Views.{line_view, content_left};
ghost use Rattle.sd_formula.specs.Dimacs as texts;
ghost use Rattle.sd_formula.specs.Dimacs.{Gives};
ghost use Rattle.sd_formula.specs.Steps.{body_view, no_parts, literal_read, put_words, put_pieces};

use crate::error::FormulaError;
use crate::formula::Kind;
use crate::parts::Body;
use sd_base::{ContentLines, Line, integer};
use std::alloc::Global;

/// The literal or the zero that a word of the body stands for.
fn literal_of(variables: u32, line: u32, word: &[u8]) -> Result<i32, FormulaError>
    requires { variables ≤ 1024 }
    ensures { Gives (λ z. z) result
        (texts.literal_of_word variables (record { line = line; bytes = word.now })) }
{
    let literal = integer(word).ok_or(FormulaError::BadWord { line })?;
    if literal.unsigned_abs() > u64::from(variables) {
        return Err(FormulaError::LiteralRange { line, literal });
    }
    Ok(literal as i32)
}

/// What follows the `x` that a word begins with; in a DNF `x` is no mark.
fn after_mark(kind: Kind, word: &[u8]) -> Option<&[u8]>
    ensures { option_map (λ rest. rest.now) result ≡ texts.after_mark kind word.now }
{
    match kind {
        Kind::Cnf => word.strip_prefix(b"x"),
        Kind::Dnf => None,
    }
}

/// Puts the literal or the zero of a word.
fn read_literal(body: &mut Body, variables: u32, line: u32, word: &[u8]) -> Result<(), FormulaError>
    requires range { variables ≤ 1024 }
    requires room { length body.old.literals.items < 2 ^ 32 }
    ensures within_limit { length body.new.literals.items ≤ length body.old.literals.items + 1 }
    ensures read { Gives (λ _. body_view body.new) result
        (literal_read variables (body_view body.old) (record { line = line; bytes = word.now })) }
{
    let literal = literal_of(variables, line, word)?;
    body.put(literal)?;
    Ok(())
}

/// Puts a word: the mark and what is joined to it, or a literal or a zero.
fn read_word(
    body: &mut Body,
    kind: Kind,
    variables: u32,
    line: u32,
    word: &[u8],
) -> Result<(), FormulaError>
    requires range { variables ≤ 1024 }
    requires room { length body.old.literals.items < 2 ^ 32 }
    ensures within_limit { length body.new.literals.items ≤ length body.old.literals.items + 1 }
    ensures read { Gives (λ _. body_view body.new) result
        (put_words kind variables (body_view body.old)
        (texts.word_pieces kind (record { line = line; bytes = word.now }))) }
{
    let Some(rest) = after_mark(kind, word) else {
        return read_literal(body, variables, line, word);
    };
    if body.has_begun() {
        return Err(FormulaError::BadWord { line });
    }
    body.mark();
    if rest.is_empty() {
        return Ok(());
    }
    read_literal(body, variables, line, rest)
}

/// Puts the words of a line; after a fault those before it are put.
#[tactic(auto, using(crate::proofs::ReaderLaws::pieces_cons))]
fn read_line(
    body: &mut Body,
    kind: Kind,
    variables: u32,
    line: &Line<'_>,
) -> Result<(), FormulaError>
    requires range { variables ≤ 1024 }
    requires within_limit { length body.old.literals.items + length
        (texts.words_at (line_view line.now))
        ≤ 67108864 }
    ensures within_limit { length body.new.literals.items
        ≤ length body.old.literals.items + length (texts.words_at (line_view line.now)) }
    ensures read { Gives (λ _. body_view body.new) result
        (put_pieces kind variables (body_view body.old) (texts.words_at (line_view line.now))) }
{
    for word in line.words() {
        read_word(body, kind, variables, line.number, word)?;
    }
    Ok(())
}

/// What the lines before the first that begins with `%` stand for.
#[tactic(auto, using(crate::proofs::ReaderLaws::body_line, crate::proofs::ReaderLaws::body_length))]
pub(crate) fn read_body(
    alloc: Global,
    kind: Kind,
    variables: u32,
    lines: ContentLines<'_>,
) -> Result<Body, FormulaError>
    requires range { variables ≤ 1024 }
    requires within_limit { length (texts.body_words (content_left lines)) ≤ 67108864 }
    ensures { Gives body_view result
        (put_pieces kind variables no_parts (texts.body_words (content_left lines.entry))) }
{
    let mut body = Body::new(alloc);
    for line in lines {
        if line.begins_with(b'%') {
            return Ok(body);
        }
        read_line(&mut body, kind, variables, &line)?;
    }
    Ok(body)
}
