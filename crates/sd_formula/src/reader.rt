//! The formula of a text in the format of DIMACS, or its first fault.

ghost use Rattle.std.specs.Prelude.{◌≡◌, ◌≤◌, length, IfOk, IfErr};
ghost use Rattle.sd_base.specs.Lines.{content_of};
ghost use Rattle.sd_formula.specs.Dimacs.{Fails, Gives, dimacs, formula_of, groups_of};
ghost use Rattle.sd_formula.specs.Formulas.{IsFormula};
ghost use Rattle.sd_formula.specs.Steps.{header_view, body_view, all_groups, PartsFit, InRange};

use crate::body::read_body;
use crate::error::FormulaError;
use crate::formula::{Formula, Kind};
use crate::header::{Header, header_of};
use crate::parts::Body;
use sd_base::ContentLines;
use std::alloc::Global;

/// The formula of a kind that a text of at most 67,108,864 bytes stands for, or its first fault.
///
/// The header is the first line that is neither blank nor a comment, which begins with `c`: `p`,
/// `cnf` or `dnf`, the number of variables, the number of groups. The lines after it, up to the
/// first that begins with `%`, are integers: a literal is put into the group in hand, and 0 ends
/// the group. Under `cnf` a group that begins with `x`, as a word or joined to the next one, is an
/// exclusive group. Literals that are repeated or opposite are kept as they are written. Separators
/// before the first byte of a line do not count. Any text may answer `OutOfMemory`.
#[tactic(auto, using(crate::proofs::ReaderLaws::text_of_lines))]
pub fn read_dimacs(alloc: Global, bytes: &[u8], kind: Kind) -> Result<Formula, FormulaError>
    requires { length bytes.now ≤ 67108864 }
    ensures ok { IfOk result (λ f. dimacs kind bytes.now ≡ Ok f) }
    ensures fault { IfErr result (λ e. Fails e (dimacs kind bytes.now)) }
    ensures in_range { IfOk result IsFormula }
{
    read_text(alloc, bytes, kind)
}

/// The formula that a text stands for.
fn read_text(alloc: Global, bytes: &[u8], kind: Kind) -> Result<Formula, FormulaError>
    requires { length bytes.now ≤ 67108864 }
    ensures { Gives (λ f. f) result (formula_of kind (content_of 99 bytes.now)) }
{
    let mut lines = ContentLines::new(bytes, b'c');
    let Some(first) = lines.next() else {
        return Err(FormulaError::NoHeader);
    };
    let header = header_of(kind, &first)?;
    let body = read_body(alloc, kind, header.variables, lines)?;
    finish(kind, header, body)
}

/// The formula of these groups, where no mark and no literal stands after the last zero.
#[tactic(auto, using(crate::proofs::ReaderLaws::counted))]
fn finish(kind: Kind, header: Header, body: Body) -> Result<Formula, FormulaError>
    requires range { InRange (header_view header) }
    requires literals { PartsFit kind header.variables (body_view body) }
    ensures { Gives (λ f. f) result
        (groups_of kind (header_view header) (all_groups (body_view body))) }
{
    if body.has_begun() {
        return Err(FormulaError::Unterminated);
    }
    let found = body.ends.len() as u64;
    if header.groups != found {
        return Err(FormulaError::CountDiffers {
            stated: header.groups,
            found,
        });
    }
    Ok(Formula {
        kind,
        variables: header.variables,
        literals: body.literals,
        ends: body.ends,
    })
}
