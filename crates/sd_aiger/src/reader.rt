//! The circuit of a text.

ghost use Rattle.std.specs.Prelude.{◌≡◌, ◌≤◌, ◌-◌, length, Ok, IfOk, IfErr};
ghost use Rattle.sd_base.specs.Lines.{numbered_lines};
ghost use Rattle.sd_base.specs.Views.{lines_left};
ghost use Rattle.sd_circuit.specs.Order.{IsClosed};
ghost use Rattle.sd_aiger.specs.Reads as texts;
ghost use Rattle.sd_aiger.specs.Reads.{Fails, Gives, aiger, all_defined};
ghost use Rattle.sd_aiger.specs.Steps.{header_view, body_view, without_cycle, finished};
ghost use Rattle.sd_aiger.specs.Steps.{AreInRange, IsRead, IsMarked};

use crate::body::{Body, read_body};
use crate::fault::AigerFault;
use crate::header::{Header, header_of};
use crate::uses::check_uses;
use sd_base::Lines;
use sd_circuit::{Circuit, OrderError};
use std::alloc::Global;

/// The circuit that a text in the ASCII format of AIGER stands for, or the text's first fault.
///
/// The text has at most 67,108,864 bytes. Its first line is `aag M I L O A`: variables 1 to M, at
/// most 2,000,000, with I inputs, 1 to 1,024, no latch, O outputs, 1 to 1,024, and A and-lines.
/// Behind it stand I lines of one literal, O lines of one literal, and A lines of three; what
/// follows is not read. Any text may answer `OutOfMemory`.
#[tactic(auto, unfolding(crate::specs::Reads::aiger))]
pub fn read_aiger(alloc: Global, bytes: &[u8]) -> Result<Circuit, AigerFault>
    requires { length bytes.now ≤ 67108864 }
    ensures ok { IfOk result (λ c. aiger bytes.now ≡ Ok c.text) }
    ensures fault { IfErr result (λ e. Fails e (aiger bytes.now)) }
{
    let mut lines = Lines::new(bytes);
    let first = lines.next().ok_or(AigerFault::NoHeader)?;
    let header = header_of(&first)?;
    let found = count_lines(bytes) - 1;
    let body = read_all(alloc, &header, lines, found)?;
    finish(alloc, &header, body)
}

/// How many lines a text has.
fn count_lines(bytes: &[u8]) -> u64
    requires { length bytes.now ≤ 67108864 }
    ensures { result ≡ length (numbered_lines bytes.now) }
{
    Lines::new(bytes).count() as u64
}

/// The lines that the header states, of those that are found behind it.
fn read_all(
    alloc: Global,
    header: &Header,
    lines: Lines<'_>,
    found: u64,
) -> Result<Body, AigerFault>
    requires range { AreInRange (header_view header.now) }
    requires found { found ≡ length (lines_left lines) }
    ensures value { Gives body_view result
        (texts.circuit_of (header_view header.now) (lines_left lines.entry)) }
    ensures read { IfOk result (λ body. IsRead (header_view header.now) (body_view body)) }
    ensures marked { IfOk result IsMarked }
{
    let stated = header.lines();
    if found < stated {
        return Err(AigerFault::CountDiffers { stated, found });
    }
    read_body(alloc, header, lines)
}

/// The circuit of what was read, where all is defined and no and-line lies on a cycle.
fn finish(alloc: Global, header: &Header, body: Body) -> Result<Circuit, AigerFault>
    requires range { AreInRange (header_view header.now) }
    requires read { IsRead (header_view header.now) (body_view body) }
    requires marked { IsMarked body }
    ensures { Gives (λ c. c.text) result (finished (header_view header.now) (body_view body)) }
{
    check_uses(header, &body)?;
    circuit_of(alloc, header, body)
}

/// The circuit of what was read, where no and-line lies on a cycle.
fn circuit_of(alloc: Global, header: &Header, body: Body) -> Result<Circuit, AigerFault>
    requires range { AreInRange (header_view header.now) }
    requires read { IsRead (header_view header.now) (body_view body) }
    requires defined { all_defined (header_view header.now) (body_view body) ≡ Ok tt }
    ensures { Gives (λ c. c.text) result (without_cycle (header_view header.now) (body_view body)) }
{
    let Body {
        variables,
        inputs,
        outputs,
        ands,
        ..
    } = body;
    match Circuit::new(alloc, variables, inputs, outputs, ands) {
        Ok(circuit) => {
            // it has an order of its gates, so no and-line lies on a cycle
            let _gates = circuit.gates();
            Ok(circuit)
        }
        Err(OrderError::Cycle { index }) => Err(AigerFault::Cycle {
            line: header.first_and() + index,
        }),
        Err(OrderError::OutOfMemory) => Err(AigerFault::OutOfMemory),
    }
}
