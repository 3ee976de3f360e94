//! The lines behind the header.

ghost use Rattle.std.specs.Prelude.{◌≡◌, ◌≤◌, OnOk, IfOk};
ghost use Rattle.sd_base.specs.Reading.{each_to};
ghost use Rattle.sd_base.specs.Views.{line_view, lines_left};
ghost use Rattle.sd_aiger.specs.Reads.{Gives};
ghost use Rattle.sd_aiger.specs.Steps.{header_view, body_view, no_lines, line_read, IsMarked, AreInRange};
ghost use Rattle.sd_aiger.specs.Steps.{more_inputs, more_outputs, more_ands};

use crate::definitions::define;
use crate::fault::AigerFault;
use crate::header::Header;
use crate::line::{literal_of, literals_of};
use sd_base::{Line, Lines};
use sd_circuit::And;
use std::alloc::{AllocError, Global};

/// The lines that were read.
#[derive(Drop)]
pub(crate) struct Body {
    pub(crate) variables: u32,
    pub(crate) inputs: Vec<u32>,
    pub(crate) outputs: Vec<u32>,
    pub(crate) ands: Vec<And>,
    /// Of each variable whether a line defines it.
    pub(crate) marks: Vec<bool>,
}

impl Body {
    /// None yet.
    fn new(alloc: Global, variables: u32, ands: usize) -> Result<Body, AllocError>
        requires variables { variables ≤ 2000000 }
        requires ands { ands ≤ 2000000 }
        ensures none { IfOk result (λ body. body_view body ≡ no_lines variables) }
        ensures marked { IfOk result IsMarked }
    {
        Ok(Body {
            variables,
            inputs: Vec::new(alloc),
            outputs: Vec::new(alloc),
            ands: Vec::with_capacity(alloc, ands)?,
            marks: vec![in alloc; false; variables as usize + 1]?,
        })
    }

    /// Reads one more line.
    fn read_line(&mut self, header: &Header, line: &Line<'_>) -> Result<(), AigerFault>
        requires variables { self.old.variables ≤ 2000000 }
        requires marked { IsMarked self.old }
        ensures value { Gives (λ _. body_view self.new) result
            (line_read (header_view header.now) (body_view self.old) (line_view line.now)) }
        ensures marked { OnOk result (IsMarked self.new) }
        ensures variables { self.new.variables ≡ self.old.variables }
    {
        if (self.inputs.len() as u64) < header.inputs {
            self.read_input(line)
        } else if (self.outputs.len() as u64) < header.outputs {
            self.read_output(line)
        } else if (self.ands.len() as u64) < header.ands {
            self.read_and(line)
        } else {
            Ok(())
        }
    }

    /// Reads an input line.
    fn read_input(&mut self, line: &Line<'_>) -> Result<(), AigerFault>
        requires variables { self.old.variables ≤ 2000000 }
        requires marked { IsMarked self.old }
        ensures value { Gives (λ _. body_view self.new) result
            (more_inputs (body_view self.old) (line_view line.now)) }
        ensures marked { OnOk result (IsMarked self.new) }
        ensures variables { self.new.variables ≡ self.old.variables }
    {
        let literal = literal_of(line, self.variables)?;
        define(&mut self.marks, line.number, literal)?;
        self.inputs.push(literal)?;
        Ok(())
    }

    /// Reads an output line.
    fn read_output(&mut self, line: &Line<'_>) -> Result<(), AigerFault>
        requires variables { self.old.variables ≤ 2000000 }
        requires marked { IsMarked self.old }
        ensures value { Gives (λ _. body_view self.new) result
            (more_outputs (body_view self.old) (line_view line.now)) }
        ensures marked { OnOk result (IsMarked self.new) }
        ensures variables { self.new.variables ≡ self.old.variables }
    {
        let literal = literal_of(line, self.variables)?;
        self.outputs.push(literal)?;
        Ok(())
    }

    /// Reads an and-line.
    fn read_and(&mut self, line: &Line<'_>) -> Result<(), AigerFault>
        requires variables { self.old.variables ≤ 2000000 }
        requires marked { IsMarked self.old }
        ensures value { Gives (λ _. body_view self.new) result
            (more_ands (body_view self.old) (line_view line.now)) }
        ensures marked { OnOk result (IsMarked self.new) }
        ensures variables { self.new.variables ≡ self.old.variables }
    {
        let (defined, first, second) = literals_of(line, self.variables)?;
        define(&mut self.marks, line.number, defined)?;
        self.ands.push(And {
            defined,
            first,
            second,
        })?;
        Ok(())
    }
}

/// The lines behind the header. Those past the last one that it states are passed over.
pub(crate) fn read_body(
    alloc: Global,
    header: &Header,
    lines: Lines<'_>,
) -> Result<Body, AigerFault>
    requires range { AreInRange (header_view header.now) }
    ensures value { Gives body_view result (each_to (line_read (header_view header.now))
        (no_lines header.now.variables) (lines_left lines.entry)) }
    ensures marked { IfOk result IsMarked }
{
    let mut body = Body::new(alloc, header.variables as u32, header.ands as usize)?;
    for line in lines {
        body.read_line(header, &line)?;
    }
    Ok(body)
}
