//! Which variables lines define.

ghost use Rattle.std.specs.Prelude.{◌≡◌, ◌<◌, ◌/◌, ◌%◌, ◌==◌, ◌||◌, length, set, true, codes, OnOk};
ghost use Rattle.sd_base.specs.FaultTexts.{at_line};
ghost use Rattle.sd_base.specs.Reading.{fault_if};
ghost use Rattle.sd_aiger.specs.Reads.{Gives};
ghost use Rattle.sd_aiger.specs.Steps as steps;

use crate::fault::AigerFault;

/// Whether the variable of a literal has a mark.
fn is_marked(marks: &[bool], literal: u32) -> bool
    ensures { result ≡ steps.is_marked marks.now literal }
{
    marks.get((literal / 2) as usize).copied().unwrap_or(false)
}

/// Whether a literal is a constant, or its variable has a mark.
pub(crate) fn is_known(marks: &[bool], literal: u32) -> bool
    ensures { result ≡ steps.is_known marks.now literal }
{
    literal < 2 || is_marked(marks, literal)
}

/// Marks the variable that a line defines.
pub(crate) fn define(marks: &mut Vec<bool>, line: u32, literal: u32) -> Result<(), AigerFault>
    requires within { literal / 2 < length marks.old.items }
    ensures value { Gives (λ _. tt) result (fault_if
        (literal % 2 == 1 || literal == 0 || steps.is_marked marks.old.items literal)
        (at_line line (codes ": bad definition"))) }
    ensures marked { OnOk result (marks.new.items ≡ set marks.old.items (literal / 2) true) }
{
    if literal % 2 == 1 || literal == 0 || is_marked(marks, literal) {
        return Err(AigerFault::BadDefinition { line });
    }
    marks[(literal / 2) as usize] = true;
    Ok(())
}
