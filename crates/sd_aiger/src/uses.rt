//! Whether what lines use is defined.

ghost use Rattle.std.specs.Prelude.{◌≡◌, ◌<◌, ◌&&◌, not, length, position, IfSome};
ghost use Rattle.sd_aiger.specs.Reads as texts;
ghost use Rattle.sd_aiger.specs.Reads.{Gives};
ghost use Rattle.sd_aiger.specs.Steps as steps;
ghost use Rattle.sd_aiger.specs.Steps.{header_view, body_view, AreInRange, IsRead, IsMarked};

use crate::body::Body;
use crate::definitions::is_known;
use crate::fault::AigerFault;
use crate::header::Header;
use sd_circuit::And;

/// Tests whether each output and each right side is defined.
pub(crate) fn check_uses(header: &Header, body: &Body) -> Result<(), AigerFault>
    requires range { AreInRange (header_view header.now) }
    requires read { IsRead (header_view header.now) (body_view body.now) }
    requires marked { IsMarked body.now }
    ensures { Gives (λ _. tt) result
        (texts.all_defined (header_view header.now) (body_view body.now)) }
{
    if let Some(place) = undefined_output(header, body) {
        let line = header.first_output() + place as u32;
        return Err(AigerFault::Undefined { line });
    }
    if let Some(place) = undefined_and(header, body) {
        let line = header.first_and() + place as u32;
        return Err(AigerFault::Undefined { line });
    }
    Ok(())
}

/// The place of the first output that is not defined.
fn undefined_output(header: &Header, body: &Body) -> Option<usize>
    requires read { IsRead (header_view header.now) (body_view body.now) }
    requires marked { IsMarked body.now }
    ensures value { result ≡ position
        (λ output. not (texts.is_defined (body_view body.now) output)) body.now.outputs.items }
    ensures within { IfSome result (λ place. place < length body.now.outputs.items) }
{
    unknown_output(&body.marks, &body.outputs)
}

/// The place of the first and-line with a right side that is not defined.
fn undefined_and(header: &Header, body: &Body) -> Option<usize>
    requires read { IsRead (header_view header.now) (body_view body.now) }
    requires marked { IsMarked body.now }
    ensures value { result ≡ position
        (λ line. not (texts.is_defined (body_view body.now) line.first
        && texts.is_defined (body_view body.now) line.second)) body.now.ands.items }
    ensures within { IfSome result (λ place. place < length body.now.ands.items) }
{
    unknown_and(&body.marks, &body.ands)
}

/// The place of the first output without a mark.
fn unknown_output(marks: &[bool], outputs: &[u32]) -> Option<usize>
    ensures value { result ≡ position (λ output. not (steps.is_known marks.now output)) outputs.now }
    ensures within { IfSome result (λ place. place < length outputs.now) }
{
    outputs.iter().position(|output| !is_known(marks, *output))
}

/// The place of the first and-line with a right side without a mark.
fn unknown_and(marks: &[bool], ands: &[And]) -> Option<usize>
    ensures value { result ≡ position (λ line. not (steps.is_known marks.now line.first
        && steps.is_known marks.now line.second)) ands.now }
    ensures within { IfSome result (λ place. place < length ands.now) }
{
    ands.iter().position(|line| !are_known(marks, line))
}

/// Whether both right sides of an and-line have a mark.
fn are_known(marks: &[bool], line: &And) -> bool
    ensures { result
        ≡ (steps.is_known marks.now line.now.first && steps.is_known marks.now line.now.second) }
{
    is_known(marks, line.first) && is_known(marks, line.second)
}
